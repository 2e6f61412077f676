//! What the calls on enclaves leave.

ghost use Rattle.std.specs.Prelude.{◌≡◌, map};
ghost use Rattle.mon_types.specs.Enclaves.{empty_enclave};
ghost use Rattle.mon_model.specs.EnclaveCalls.{deleted, initialized};
ghost use Rattle.mon_enclaves.specs.Named.{IsCreate, IsLoadTable, IsLoadPage, IsReserve, after_creating, after_loading_table, after_loading_page, after_reserving};

use mon_measure::{Item, measure_created, measure_with};
use mon_types::{Call, Enclave, Region, Stage};

/// What create leaves: the enclave is Loading with its range and the measurement of that range, and
/// nothing else.
pub fn after_create(ticket: u32, call: &Call, enclave: &mut Enclave)
    requires { IsCreate call.now }
    ensures { enclave.new ≡ after_creating call.now enclave.old }
{
    let Call::Create { base, size, .. } = *call else {
        unreachable!()
    };
    *enclave = Enclave {
        stage: Stage::Loading,
        base,
        size,
        measure: measure_created(base, size),
        ..Enclave::empty()
    };
}

/// What load_table leaves: a table of level 2 is the root, the next page is the one after the table's,
/// and the measurement has the table's address and level.
pub fn after_table(ticket: u32, call: &Call, enclave: &mut Enclave)
    requires { IsLoadTable call.now }
    ensures { enclave.new ≡ after_loading_table call.now enclave.old }
{
    let Call::LoadTable {
        va,
        level,
        page,
        ..
    } = *call
    else {
        unreachable!()
    };
    let page = page as u16;
    if level == 2 {
        enclave.root = Some(page);
    }
    enclave.next_page = page + 1;
    enclave.measure = measure_with(&enclave.measure, &Item::Table { va, level });
}

/// What load_page leaves: the next page is the one after the page, and the measurement has the page's
/// address, permissions and `digest`.
pub fn after_page(ticket: u32, call: &Call, enclave: &mut Enclave, digest: &[u8; 32])
    requires { IsLoadPage call.now }
    ensures { enclave.new ≡ after_loading_page call.now enclave.old digest.now }
{
    let Call::LoadPage {
        va,
        page,
        perms,
        ..
    } = *call
    else {
        unreachable!()
    };
    let item = Item::Page {
        va,
        perms,
        digest: *digest,
    };
    enclave.next_page = page as u16 + 1;
    enclave.measure = measure_with(&enclave.measure, &item);
}

/// What reserve leaves: the next page is the one after the reserved page, and the measurement has its
/// address and permissions.
pub fn after_reserve(ticket: u32, call: &Call, enclave: &mut Enclave)
    requires { IsReserve call.now }
    ensures { enclave.new ≡ after_reserving call.now enclave.old }
{
    let Call::Reserve {
        va,
        page,
        perms,
        ..
    } = *call
    else {
        unreachable!()
    };
    enclave.next_page = page as u16 + 1;
    enclave.measure = measure_with(&enclave.measure, &Item::reserved(va, perms));
}

/// What init leaves: the enclave is Initialized, and its measurement is at its end.
pub fn after_init(ticket: u32, call: &Call, enclave: &mut Enclave)
    ensures { enclave.new ≡ initialized enclave.old }
{
    enclave.stage = Stage::Initialized;
    enclave.measure = measure_with(&enclave.measure, &Item::Init);
}

/// What delete leaves: the slot is empty, and each of the enclave's regions is Blocked. `regions` are
/// those of its set, ascending; one that is not Owned stays as it is.
pub fn after_delete(ticket: u32, call: &Call, enclave: &mut Enclave, regions: &mut [Region])
    ensures enclave { enclave.new ≡ empty_enclave }
    ensures regions { regions.new ≡ map (λ region. deleted region ticket) regions.old }
{
    *enclave = Enclave::empty();
    for region in regions.iter_mut() {
        *region = region.withdrawn(ticket);
    }
}
