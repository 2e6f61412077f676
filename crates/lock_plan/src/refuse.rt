//! Refusals before any object is tried.

ghost use Rattle.std.specs.Prelude.{◌≡◌, ◌+◌, ◌^◌, nat_lt, false, IfSome};
ghost use Rattle.mon_types.specs.Replies.{is_done};
ghost use Rattle.mon_model.specs.Early.{is_wrong_mode, is_bad_value, is_fixed_region, is_no_region, is_no_slot, is_no_thread, is_no_mailbox, is_no_page, is_bad_address, are_bad_perms, is_bad_range, is_bad_level, is_bad_satp, early};

use mon_types::{ADDRESS_END, Call, Config, Mode, OS_WORD, PAGE_BYTES, Reply, SLOTS, THREADS};

/// Whether a core in this mode may not make this call.
fn has_wrong_mode(mode: Mode, call: &Call) -> bool
    ensures { result ≡ is_wrong_mode mode call.now }
{
    let inside = match mode {
        Mode::Os => false,
        Mode::Inside { .. } => true,
    };
    match call {
        Call::Block { .. }
        | Call::RegionInfo { .. }
        | Call::EnclaveInfo { .. }
        | Call::Unknown { .. } => false,
        Call::Exit
        | Call::Aex { .. }
        | Call::Restore
        | Call::Accept { .. }
        | Call::Send { .. }
        | Call::Read { .. }
        | Call::AcceptRegion { .. } => !inside,
        _ => inside,
    }
}

fn names_no_slot(e: u64) -> bool
    ensures { result ≡ is_no_slot e }
{
    SLOTS as u64 <= e
}

fn names_no_thread(t: u64) -> bool
    ensures { result ≡ is_no_thread t }
{
    THREADS as u64 <= t
}

fn names_no_mailbox(m: u64) -> bool
    ensures { result ≡ is_no_mailbox m }
{
    2 <= m
}

fn names_no_region(config: &Config, r: u64) -> bool
    ensures { result ≡ is_no_region config.now r }
{
    u64::from(config.regions()) <= r
}

/// Region 0 stays the OS's.
fn names_fixed_region(config: &Config, r: u64) -> bool
    ensures { result ≡ is_fixed_region config.now r }
{
    r == 0 || names_no_region(config, r)
}

fn names_no_page(config: &Config, page: u64) -> bool
    ensures { result ≡ is_no_page config.now page }
{
    u64::from(config.total_pages()) <= page
}

fn has_bad_address(va: u64) -> bool
    ensures { result ≡ is_bad_address va }
{
    va % PAGE_BYTES != 0 || ADDRESS_END <= va
}

fn has_bad_perms(perms: u64) -> bool
    ensures { result ≡ are_bad_perms perms }
{
    perms != 1 && perms != 3 && perms != 4 && perms != 5 && perms != 7
}

fn has_bad_range(base: u64, size: u64) -> bool
    ensures { result ≡ is_bad_range base size }
{
    base % PAGE_BYTES != 0 || size % PAGE_BYTES != 0 || size == 0 || ends_too_high(base, size)
}

/// Whether the range ends above the last address.
fn ends_too_high(base: u64, size: u64) -> bool
    ensures { result ≡ nat_lt (2 ^ 38) (base + size) }
{
    1 << 38 < base || (1 << 38) - base < size
}

fn has_bad_level(va: u64, level: u64) -> bool
    ensures { result ≡ is_bad_level va level }
{
    2 < level || (level == 2 && va != 0)
}

fn has_bad_satp(v: u64) -> bool
    ensures { result ≡ is_bad_satp v }
{
    v != 0 && !((v >> 60) == 8 && (v >> 44) % (1 << 16) == 0)
}

/// Whether an argument of the call is out of range.
fn has_bad_value(config: &Config, call: &Call) -> bool
    ensures { result ≡ is_bad_value config.now call.now }
{
    match *call {
        Call::Block { r } | Call::Free { r } | Call::AcceptRegion { r } => {
            names_fixed_region(config, r)
        }
        Call::Assign { r, to } => {
            names_fixed_region(config, r) || (names_no_slot(to) && to != OS_WORD)
        }
        Call::RegionInfo { r } => names_no_region(config, r),
        Call::Create { e, base, size } => names_no_slot(e) || has_bad_range(base, size),
        Call::LoadTable { e, va, level, page } => {
            names_no_slot(e)
                || has_bad_address(va)
                || names_no_page(config, page)
                || has_bad_level(va, level)
        }
        Call::LoadPage {
            e,
            va,
            page,
            src,
            perms,
        } => {
            names_no_slot(e)
                || has_bad_address(va)
                || names_no_page(config, page)
                || names_no_page(config, src)
                || has_bad_perms(perms)
        }
        Call::Reserve { e, va, page, perms } => {
            names_no_slot(e)
                || has_bad_address(va)
                || names_no_page(config, page)
                || has_bad_perms(perms)
        }
        Call::LoadThread { e, t, entry, .. } => {
            names_no_slot(e) || names_no_thread(t) || entry % 4 != 0
        }
        Call::DeleteThread { e, t } | Call::Enter { e, t } => {
            names_no_slot(e) || names_no_thread(t)
        }
        Call::Init { e } | Call::Delete { e } | Call::EnclaveInfo { e } => names_no_slot(e),
        Call::Accept { m, from } => names_no_mailbox(m) || names_no_slot(from),
        Call::Send { to, m, .. } => names_no_slot(to) || names_no_mailbox(m),
        Call::Read { m } => names_no_mailbox(m),
        Call::SetSatp { v } => has_bad_satp(v),
        Call::Flush | Call::Exit | Call::Aex { .. } | Call::Restore | Call::Unknown { .. } => false,
    }
}

/// The refusal of a call before any object is tried, if there is one: Unsupported where it has no known
/// number, AccessDenied where the core's mode is wrong, InvalidValue where an argument is out of range,
/// the first of these that applies.
pub fn refuse_early(config: &Config, mode: Mode, call: &Call) -> Option<Reply>
    ensures early { result ≡ early config.now mode call.now }
    ensures refusal { IfSome result (λ reply. is_done reply ≡ false) }
{
    if let Call::Unknown { .. } = call {
        Some(Reply::Unsupported)
    } else if has_wrong_mode(mode, call) {
        Some(Reply::AccessDenied)
    } else if has_bad_value(config, call) {
        Some(Reply::InvalidValue)
    } else {
        None
    }
}
