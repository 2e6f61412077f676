//! The records that an Ok leaves.

ghost use Rattle.std.specs.Prelude.{◌≡◌, ◌<◌, None};
ghost use Rattle.mon_model.specs.Early.{early};
ghost use Rattle.mon_model.specs.InRange.{IsInRange};
ghost use Rattle.mon_calls.specs.Left.{left_by};
ghost use Rattle.mon_calls.specs.Decided.{AreLeft};

use crate::enclaves::{
    apply_create, apply_delete, apply_init, apply_page, apply_reserve, apply_table,
};
use crate::mail::{apply_accept, apply_read, apply_send};
use crate::regions::{apply_accept_region, apply_assign, apply_block, apply_flush, apply_free};
use crate::threads::{
    apply_aex, apply_delete_thread, apply_enter, apply_exit, apply_load_thread, apply_restore,
};
use lock_plan::Held;
use mon_types::{Call, Config, Mode};

/// What a call that `decide` answered with Ok leaves of the records of all that it tries, at its ticket.
/// `digest` is that of the page that a load_page reads, and is not used by other calls.
pub fn apply(
    config: &Config,
    core: u8,
    mode: Mode,
    call: &Call,
    digest: &[u8; 32],
    ticket: u32,
    held: &mut Held,
)
    requires { early config.now mode call.now ≡ None }
    ensures by_records { held.new ≡ left_by mode call.now digest.now ticket held.old }
    ensures in_states { AreLeft config.now core mode call.now digest.now ticket held.old held.new }
{
    apply_in_range(config, mode, call, digest, ticket, held);
}

#[tactic(auto, using(mon_types::specs::LimitLaws::few_regions, mon_types::specs::LimitLaws::few_pages))]
fn apply_in_range(
    config: &Config,
    mode: Mode,
    call: &Call,
    digest: &[u8; 32],
    ticket: u32,
    held: &mut Held,
)
    requires { IsInRange config.now call.now }
    ensures { held.new ≡ left_by mode call.now digest.now ticket held.old }
{
    let _regions = config.regions();
    match *call {
        Call::Block { r } => apply_block(call, ticket, r, held),
        Call::Free { .. } => apply_free(call, ticket, held),
        Call::Assign { r, to } => apply_assign(call, ticket, r, to, held),
        Call::Flush => apply_flush(call, ticket, held),
        Call::Create { .. } => apply_create(call, ticket, held),
        Call::LoadTable { .. } => apply_table(call, ticket, held),
        Call::LoadPage { .. } => apply_page(call, digest, ticket, held),
        Call::LoadThread { .. } => apply_load_thread(call, ticket, held),
        Call::Init { e } => apply_init(call, ticket, e, held),
        Call::DeleteThread { e, t } => apply_delete_thread(call, ticket, e, t, held),
        Call::Delete { e } => apply_delete(call, ticket, e, held),
        Call::Enter { .. } => apply_enter(call, ticket, held),
        Call::Exit => apply_exit(call, ticket, held),
        Call::Aex { .. } => apply_aex(call, ticket, held),
        Call::Restore => apply_restore(call, ticket, held),
        Call::Accept { .. } => apply_accept(call, ticket, held),
        Call::Send { to, .. } => apply_send(call, mode.own_slot(), ticket, to, held),
        Call::Read { .. } => apply_read(call, ticket, held),
        Call::AcceptRegion { .. } => apply_accept_region(call, ticket, mode.own_slot(), held),
        Call::Reserve { .. } => apply_reserve(call, ticket, held),
        Call::RegionInfo { .. }
        | Call::EnclaveInfo { .. }
        | Call::SetSatp { .. }
        | Call::Unknown { .. } => {}
    }
}
