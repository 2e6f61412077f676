//! What a call answers, from the records that it holds.

ghost use Rattle.std.specs.Prelude.{◌≡◌, ◌≤◌, ◌==◌, if◌then◌else◌, length, map, true, None, Some};
ghost use Rattle.mon_types.specs.Owns.{os_word};
ghost use Rattle.mon_types.specs.Shape.{is_shape};
ghost use Rattle.mon_model.specs.Early.{early};
ghost use Rattle.mon_model.specs.InRange.{IsInRange};
ghost use Rattle.mon_model.specs.RegionCalls.{free_reply, assign_reply};
ghost use Rattle.lock_plan.specs.Plan.{first_region};
ghost use Rattle.mon_calls.specs.OnHeld.{tickets_held, target_held};
ghost use Rattle.mon_calls.specs.Replied.{replied};
ghost use Rattle.mon_calls.specs.Decided.{IsReply};

use arrayvec::ArrayVec;
use lock_plan::Held;
use mon_enclaves::{
    decide_create, decide_delete, decide_enclave_info, decide_init, decide_page, decide_reserve,
    decide_satp, decide_table,
};
use mon_mail::{decide_accept, decide_read, decide_send};
use mon_regions::{
    decide_accept_region, decide_assign, decide_block, decide_flush, decide_free,
    decide_region_info,
};
use mon_threads::{
    decide_aex, decide_delete_thread, decide_enter, decide_exit, decide_load_thread, decide_restore,
};
use mon_types::{Call, Config, Enclave, Mode, OS_WORD, Region, Reply};

/// The flush tickets of these cells.
fn tickets_of(cells: &[(u8, u32)]) -> ArrayVec<u32, 16>
    requires { length cells.now ≤ 16 }
    ensures { result.items ≡ map (λ cell. cell.1) cells.now }
{
    let mut tickets = ArrayVec::new();
    for (_, ticket) in cells {
        tickets.push(*ticket);
    }
    tickets
}

fn decide_free_held(held: &Held) -> Reply
    ensures { result ≡ free_reply (first_region held.now) (tickets_held held.now) }
{
    decide_free(&held.first_region(), &tickets_of(&held.cells))
}

fn decide_give(enclave: &Enclave, region: &Region) -> Reply
    ensures { result ≡ assign_reply (Some enclave.now) region.now }
{
    decide_assign(Some(enclave), region)
}

fn decide_assign_to(to: u64, enclave: &Enclave, region: &Region) -> Reply
    ensures { result ≡ assign_reply (if to == os_word then None else Some enclave.now) region.now }
{
    if to == OS_WORD {
        decide_assign(None, region)
    } else {
        decide_give(enclave, region)
    }
}

fn target_of(own: u8, to: u64, held: &Held) -> Enclave
    ensures { result ≡ target_held own to held.now }
{
    if u64::from(own) == to {
        held.first_enclave()
    } else if u64::from(own) < to {
        held.second_enclave()
    } else {
        held.first_enclave()
    }
}

/// What a call answers that was not refused early, made by this core in this mode, where it holds the
/// records of all that it tries. `ptes` are the words of page tables that were read so far on the path of
/// the call's address, from the root down; only load_table, load_page and reserve look at them, and where
/// fewer are given than the path has, Ok means that the next word is to be read.
pub fn decide(
    config: &Config,
    core: u8,
    mode: Mode,
    call: &Call,
    held: &Held,
    ptes: &[u64],
) -> Reply
    requires { early config.now mode call.now ≡ None }
    ensures by_records { result ≡ replied config.now mode call.now held.now ptes.now }
    ensures in_states { IsReply config.now core mode call.now held.now ptes.now result }
{
    decide_in_range(config, mode, call, held, ptes)
}

#[tactic(auto, using(mon_types::specs::LimitLaws::few_pages))]
fn decide_in_range(config: &Config, mode: Mode, call: &Call, held: &Held, ptes: &[u64]) -> Reply
    requires { IsInRange config.now call.now }
    ensures by_records { result ≡ replied config.now mode call.now held.now ptes.now }
    ensures valid { is_shape config.now ≡ true }
{
    let _regions = config.regions();
    match *call {
        Call::Block { .. } => decide_block(mode, &held.first_region()),
        Call::Free { .. } => decide_free_held(held),
        Call::Assign { to, .. } => decide_assign_to(
            to,
            &held.first_enclave(),
            &held.first_region(),
        ),
        Call::Flush => decide_flush(),
        Call::RegionInfo { .. } => decide_region_info(&held.first_region()),
        Call::Create { .. } => decide_create(&held.first_enclave()),
        Call::LoadTable {
            va,
            level,
            page,
            ..
        } => decide_table(
            config,
            &held.first_enclave(),
            va,
            level as u8,
            page as u16,
            ptes,
        ),
        Call::LoadPage { va, page, .. } => {
            let (enclave, source) = (held.first_enclave(), held.first_region());
            decide_page(config, &enclave, va, page as u16, &source, ptes)
        }
        Call::LoadThread { .. } => decide_load_thread(&held.first_enclave(), &held.first_thread()),
        Call::Init { .. } => decide_init(&held.first_enclave()),
        Call::DeleteThread { e, .. } => decide_delete_thread(e as u8, &held.first_thread()),
        Call::Delete { .. } => decide_delete(&held.first_enclave()),
        Call::Enter { e, .. } => decide_enter(e as u8, &held.first_enclave(), &held.first_thread()),
        Call::Exit => decide_exit(),
        Call::Aex { .. } => decide_aex(),
        Call::Restore => decide_restore(&held.first_thread()),
        Call::Accept { .. } => decide_accept(),
        Call::Send { to, m, .. } => {
            let own = mode.own_slot();
            decide_send(own, &target_of(own, to, held), m as u8)
        }
        Call::Read { m } => decide_read(&held.first_enclave(), m as u8),
        Call::EnclaveInfo { .. } => decide_enclave_info(&held.first_enclave()),
        Call::SetSatp { .. } => decide_satp(),
        Call::AcceptRegion { .. } => decide_accept_region(mode.own_slot(), &held.first_region()),
        Call::Reserve { va, page, .. } => {
            decide_reserve(config, &held.first_enclave(), va, page as u16, ptes)
        }
        Call::Unknown { .. } => Reply::Unsupported,
    }
}
