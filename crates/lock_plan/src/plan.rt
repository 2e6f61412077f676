//! The next object that a call tries.

ghost use Rattle.std.specs.Prelude.{◌≡◌, ◌<◌, ◌≤◌, ◌++◌, [], ◌∷◌, slice_get, map, None, true, IfSome};
ghost use Rattle.mon_types.specs.Shape.{is_shape};
ghost use Rattle.mon_types.specs.Bits.{members};
ghost use Rattle.mon_model.specs.Early.{early};
ghost use Rattle.mon_model.specs.Tries.{all_cells, own_enclave, free_tries, assign_tries, send_tries, delete_tries};
ghost use Rattle.lock_plan.specs.Plan.{first_region, first_enclave, plan_of, planned};
ghost use Rattle.lock_plan.specs.Objects.{HasObject, IsCaller};
ghost use Rattle.lock_plan.specs.Records.{IsNext, LeavesRoom};

use crate::held::Held;
use mon_types::{Call, Config, Mode, OS_WORD, ObjectId, Region, has_bit};

/// The object at place `n`, if there is one.
fn nth(objects: &[ObjectId], n: usize) -> Option<ObjectId>
    ensures { result ≡ slice_get objects.now n }
{
    objects.get(n).copied()
}

fn enclave(e: u64) -> ObjectId
    requires { e < 8 }
    ensures { result ≡ ObjectId.Enclave e }
{
    ObjectId::Enclave(e as u8)
}

fn thread(t: u64) -> ObjectId
    requires { t < 16 }
    ensures { result ≡ ObjectId.Thread t }
{
    ObjectId::Thread(t as u8)
}

fn region(r: u64) -> ObjectId
    requires { r < 64 }
    ensures { result ≡ ObjectId.Region r }
{
    ObjectId::Region(r as u8)
}

/// The own enclave, if the core is inside one.
fn of_own_enclave(mode: Mode, n: usize) -> Option<ObjectId>
    ensures { result ≡ slice_get (own_enclave mode) n }
{
    match mode {
        Mode::Os => None,
        Mode::Inside { enclave, .. } => nth(&[ObjectId::Enclave(enclave)], n),
    }
}

/// The own enclave, if the core is inside one, and then a region.
fn of_own_and_region(mode: Mode, r: u64, n: usize) -> Option<ObjectId>
    requires { r < 64 }
    ensures { result ≡ slice_get (own_enclave mode ++ ObjectId.Region r ∷ []) n }
{
    match mode {
        Mode::Os => nth(&[region(r)], n),
        Mode::Inside { enclave, .. } => nth(&[ObjectId::Enclave(enclave), region(r)], n),
    }
}

/// The enclave that is to have the region, unless it is the OS that is to have it, and then the region.
fn of_assign(r: u64, to: u64, n: usize) -> Option<ObjectId>
    requires r { r < 64 }
    requires to { (to ≡ OS_WORD → ⊥) → to < 8 }
    ensures { result ≡ slice_get (assign_tries r to) n }
{
    if to == OS_WORD {
        nth(&[region(r)], n)
    } else {
        nth(&[enclave(to), region(r)], n)
    }
}

/// The sender's slot and the target's: the lower first, and once if they are one.
fn of_send(own: u8, to: u64, n: usize) -> Option<ObjectId>
    requires { to < 8 }
    ensures { result ≡ slice_get (send_tries own to) n }
{
    let sender = ObjectId::Enclave(own);
    if u64::from(own) == to {
        nth(&[sender], n)
    } else if u64::from(own) < to {
        nth(&[sender, enclave(to)], n)
    } else {
        nth(&[enclave(to), sender], n)
    }
}

/// The region set of the first enclave that is held, empty where none is.
fn set_held(held: &Held) -> u64
    ensures { result ≡ (first_enclave held.now).regions }
{
    match held.enclaves.first() {
        Some((_, enclave)) => enclave.regions,
        None => 0,
    }
}

/// The cell at place `n` of a machine with so many cores.
fn nth_cell(cores: u8, n: usize) -> Option<ObjectId>
    ensures { result ≡ slice_get (all_cells cores) n }
{
    if n < usize::from(cores) {
        Some(ObjectId::Cell(n as u8))
    } else {
        None
    }
}

/// A region, and then, but only where it is held and Blocked, all cells.
fn of_free(cores: u8, r: u64, held: &Held, n: usize) -> Option<ObjectId>
    requires { r < 64 }
    ensures { result ≡ slice_get (free_tries cores r (first_region held.now)) n }
{
    if n == 0 {
        return Some(region(r));
    }
    match held.first_region() {
        Region::Blocked { .. } => nth_cell(cores, n - 1),
        _ => None,
    }
}

/// The region at place `n` of those in a set that a machine with so many regions has.
fn nth_region(set: u64, count: u8, n: usize) -> Option<ObjectId>
    requires { count ≤ 64 }
    ensures { result ≡ slice_get (map (λ r. ObjectId.Region r) (members set count)) n }
{
    let mut skipped = 0;
    for r in 0..count {
        if has_bit(set, r) {
            if skipped == n {
                return Some(ObjectId::Region(r));
            }
            skipped += 1;
        }
    }
    None
}

/// An enclave slot, and then, once it is held, the regions of its set.
fn of_delete(regions: u8, e: u64, held: &Held, n: usize) -> Option<ObjectId>
    requires e { e < 8 }
    requires regions { regions ≤ 64 }
    ensures { result ≡ slice_get (delete_tries e (first_enclave held.now).regions regions) n }
{
    if n == 0 {
        Some(enclave(e))
    } else {
        nth_region(set_held(held), regions, n - 1)
    }
}

/// The object at place `n` among those that a call tries, made by this core in this mode, as far as the
/// records held so far tell them.
#[tactic(auto, using(mon_types::specs::LimitLaws::few_regions, mon_types::specs::LimitLaws::few_pages))]
fn nth_of_plan(
    config: &Config,
    core: u8,
    mode: Mode,
    call: &Call,
    held: &Held,
    n: usize,
) -> Option<ObjectId>
    requires { early config.now mode call.now ≡ None }
    ensures object { result ≡ slice_get (plan_of config.now core mode call.now held.now) n }
    ensures valid { is_shape config.now ≡ true }
{
    let regions = config.regions();
    match *call {
        Call::Block { r } | Call::AcceptRegion { r } => of_own_and_region(mode, r, n),
        Call::Free { r } => of_free(config.cores(), r, held, n),
        Call::Assign { r, to } => of_assign(r, to, n),
        Call::Flush => nth(&[ObjectId::Cell(core)], n),
        Call::RegionInfo { r } => nth(&[region(r)], n),
        Call::Create { e, .. }
        | Call::LoadTable { e, .. }
        | Call::Init { e }
        | Call::EnclaveInfo { e }
        | Call::Reserve { e, .. } => nth(&[enclave(e)], n),
        Call::LoadPage { e, src, .. } => {
            let source = ObjectId::Region(config.region_of(src as u16));
            nth(&[enclave(e), source], n)
        }
        Call::LoadThread { e, t, .. } | Call::DeleteThread { e, t } | Call::Enter { e, t } => {
            nth(&[enclave(e), thread(t)], n)
        }
        Call::Delete { e } => of_delete(regions, e, held, n),
        Call::Exit | Call::Aex { .. } | Call::Restore => {
            nth(&[ObjectId::Thread(mode.own_thread())], n)
        }
        Call::Accept { .. } | Call::Read { .. } => of_own_enclave(mode, n),
        Call::Send { to, .. } => of_send(mode.own_slot(), to, n),
        Call::SetSatp { .. } | Call::Unknown { .. } => None,
    }
}

/// The next object that a call tries, made by this core in this mode, from the records that it holds so
/// far; None where it holds all. The call was not refused early, and `held` are the records of the first
/// objects that it tries.
pub fn next(config: &Config, core: u8, mode: Mode, call: &Call, held: &Held) -> Option<ObjectId>
    requires { early config.now mode call.now ≡ None }
    ensures planned { result ≡ planned config.now core mode call.now held.now }
    ensures next { IsNext config.now core mode call.now held.now result }
    ensures room { LeavesRoom config.now core mode call.now held.now result }
    ensures there { IsCaller config.now core mode → IfSome result (HasObject config.now) }
{
    nth_of_plan(config, core, mode, call, held, held.count())
}
