//! What the calls on regions leave.

ghost use Rattle.std.specs.Prelude.{◌≡◌, ◌<◌};
ghost use Rattle.std.specs.Option.{option_map, option_copied_mut};
ghost use Rattle.mon_model.specs.RegionCalls.{blocked, assigned, loses_region, gains_region, with_assigned};
ghost use Rattle.mon_regions.specs.Named.{named_region, named_owner, IsBlock, IsAssign, IsAcceptRegion, given_to};
ghost use Rattle.mon_regions.specs.Left.{left_behind};

use mon_types::{Call, Enclave, Owner, Region, Stage, with_bit, without_bit};

/// What block leaves: the region is Blocked, and leaves the set of the enclave that made the call.
/// `own` is that enclave, None for the OS.
pub fn after_block(ticket: u32, call: &Call, own: Option<&mut Enclave>, region: &mut Region)
    requires { IsBlock call.now }
    ensures region { region.new ≡ blocked region.old ticket }
    ensures own { left_behind own.exit ≡ option_map (λ e. loses_region e (named_region call.now)) (option_copied_mut own.entry) }
{
    let Call::Block { r } = *call else {
        unreachable!()
    };
    *region = withdrawn(*region, ticket);
    if let Some(enclave) = own {
        enclave.regions = without_bit(enclave.regions, r as u8);
    }
}

/// The region without its owner, or without the enclave that it was offered to.
fn withdrawn(region: Region, ticket: u32) -> Region
    ensures { result ≡ blocked region ticket }
{
    match region {
        Region::Offered { to, at } => Region::Blocked {
            owner: Owner::Enclave(to),
            since: at,
            at: ticket,
        },
        region => region.withdrawn(ticket),
    }
}

/// What free leaves: the region is Free.
pub fn after_free(ticket: u32, call: &Call, region: &mut Region)
    ensures { region.new ≡ Region.Free }
{
    *region = Region::Free;
}

/// What assign leaves: the OS or a Loading enclave owns the region, an Initialized one is offered it.
/// `to` is the enclave, None for the OS.
pub fn after_assign(ticket: u32, call: &Call, to: Option<&mut Enclave>, region: &mut Region)
    requires { IsAssign call.now (option_copied_mut to) }
    ensures region { region.new ≡ given_to (option_copied_mut to.entry) (named_owner call.now) ticket }
    ensures to { left_behind to.exit ≡ option_map (λ e. with_assigned e (named_region call.now)) (option_copied_mut to.entry) }
{
    let Call::Assign { r, to: slot } = *call else {
        unreachable!()
    };
    *region = match to {
        None => Region::Owned {
            owner: Owner::Os,
            since: ticket,
        },
        Some(enclave) => assign_to(enclave, slot as u8, r, ticket),
    };
}

fn assign_to(enclave: &mut Enclave, slot: u8, r: u64, ticket: u32) -> Region
    requires { r < 64 }
    ensures region { result ≡ assigned enclave.old.stage slot ticket }
    ensures enclave { enclave.new ≡ with_assigned enclave.old r }
{
    if enclave.stage == Stage::Initialized {
        Region::Offered {
            to: slot,
            at: ticket,
        }
    } else {
        enclave.regions = with_bit(enclave.regions, r as u8);
        Region::Owned {
            owner: Owner::Enclave(slot),
            since: ticket,
        }
    }
}

/// What flush leaves: the core's cell is the ticket.
pub fn after_flush(ticket: u32, call: &Call, cell: &mut u32)
    ensures { cell.new ≡ ticket }
{
    *cell = ticket;
}

/// What accept_region leaves: the enclave in slot `own`, whose record this is, owns the region.
pub fn after_accept_region(
    ticket: u32,
    call: &Call,
    own: u8,
    enclave: &mut Enclave,
    region: &mut Region,
)
    requires { IsAcceptRegion call.now }
    ensures region { region.new ≡ Region.Owned (Owner.Enclave own) ticket }
    ensures enclave { enclave.new ≡ gains_region enclave.old (named_region call.now) }
{
    let Call::AcceptRegion { r } = *call else {
        unreachable!()
    };
    enclave.regions = with_bit(enclave.regions, r as u8);
    *region = Region::Owned {
        owner: Owner::Enclave(own),
        since: ticket,
    };
}
