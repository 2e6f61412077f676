//! What the calls on enclaves leave of the records that they hold.

ghost use Rattle.std.specs.Prelude.{◌≡◌, ℕ, List, map};
ghost use Rattle.mon_types.specs.declared.thread.Mode.{Mode};
ghost use Rattle.mon_model.specs.EnclaveCalls.{deleted};
ghost use Rattle.mon_enclaves.specs.Named.{IsCreate, IsLoadTable, IsLoadPage, IsReserve};
ghost use Rattle.mon_calls.specs.Left.{delete_regions, left_by};

use crate::put::set_enclave;
use lock_plan::Held;
use mon_enclaves::{
    after_create, after_delete, after_init, after_page, after_reserve, after_table,
};
use mon_types::{Call, Enclave, Region};

/// create.
pub fn apply_create(call: &Call, ticket: u32, held: &mut Held)
    requires { IsCreate call.now }
    ensures { (mode : Mode) (digest : List ℕ) → held.new ≡ left_by mode call.now digest ticket held.old }
{
    let mut enclave = held.first_enclave();
    after_create(ticket, call, &mut enclave);
    set_enclave(held, enclave);
}

/// load_table.
pub fn apply_table(call: &Call, ticket: u32, held: &mut Held)
    requires { IsLoadTable call.now }
    ensures { (mode : Mode) (digest : List ℕ) → held.new ≡ left_by mode call.now digest ticket held.old }
{
    let mut enclave = held.first_enclave();
    after_table(ticket, call, &mut enclave);
    set_enclave(held, enclave);
}

/// load_page, of a page with this digest.
pub fn apply_page(call: &Call, digest: &[u8; 32], ticket: u32, held: &mut Held)
    requires { IsLoadPage call.now }
    ensures { (mode : Mode) → held.new ≡ left_by mode call.now digest.now ticket held.old }
{
    let mut enclave = held.first_enclave();
    after_page(ticket, call, &mut enclave, digest);
    set_enclave(held, enclave);
}

/// reserve.
pub fn apply_reserve(call: &Call, ticket: u32, held: &mut Held)
    requires { IsReserve call.now }
    ensures { (mode : Mode) (digest : List ℕ) → held.new ≡ left_by mode call.now digest ticket held.old }
{
    let mut enclave = held.first_enclave();
    after_reserve(ticket, call, &mut enclave);
    set_enclave(held, enclave);
}

/// init of slot e.
pub fn apply_init(call: &Call, ticket: u32, e: u64, held: &mut Held)
    requires { call.now ≡ Call.Init e }
    ensures { (mode : Mode) (digest : List ℕ) → held.new ≡ left_by mode call.now digest ticket held.old }
{
    let mut enclave = held.first_enclave();
    after_init(ticket, call, &mut enclave);
    set_enclave(held, enclave);
}

/// A region of an enclave that is deleted.
fn deleted_region(call: &Call, ticket: u32, region: Region) -> Region
    ensures { result ≡ deleted region ticket }
{
    let mut one = [region];
    after_delete(ticket, call, &mut Enclave::empty(), &mut one);
    one[0]
}

fn delete_each(items: &mut [(u8, Region)], call: &Call, ticket: u32)
    ensures { items.new ≡ map (λ x. (x.0, deleted x.1 ticket)) items.old }
{
    for pair in items.iter_mut() {
        *pair = (pair.0, deleted_region(call, ticket, pair.1));
    }
}

fn delete_all(held: &mut Held, call: &Call, ticket: u32)
    ensures { held.new ≡ delete_regions held.old ticket }
{
    delete_each(&mut held.regions, call, ticket);
}

/// delete of slot e.
pub fn apply_delete(call: &Call, ticket: u32, e: u64, held: &mut Held)
    requires { call.now ≡ Call.Delete e }
    ensures { (mode : Mode) (digest : List ℕ) → held.new ≡ left_by mode call.now digest ticket held.old }
{
    set_enclave(held, Enclave::empty());
    delete_all(held, call, ticket);
}
