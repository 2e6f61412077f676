//! What is measured.

ghost use Rattle.std.specs.Prelude.{◌≡◌, ◌<◌, ◌^◌};
ghost use Rattle.mon_model.specs.Measure.{reserved_level};

/// What a call adds to a measurement. Addresses are virtual and in bytes; slots of enclaves and threads
/// and places in DRAM are not measured.
#[derive(Clone, Copy, Debug, PartialEq, Eq)]
pub enum Item {
    /// A new enclave of `size` bytes from `base`.
    Create {
        base: u64,
        size: u64,
    },
    /// A page table at level 0, 1 or 2, or a reserved page ([`Item::reserved`]).
    Table {
        va: u64,
        level: u64,
    },
    /// A page with what it holds, as its SHA-256 digest. In `perms` bit 0 is R, bit 1 W, bit 2 X.
    Page {
        va: u64,
        perms: u64,
        digest: [u8; 32],
    },
    /// A thread that begins at `entry` with the stack pointer `sp`.
    Thread {
        entry: u64,
        sp: u64,
    },
    /// The end of loading.
    Init,
}

impl Item {
    /// The item of a reserved page, whose words are not measured: a table with the level number
    /// `8 + perms`, where `perms` is as in `Page`.
    pub fn reserved(va: u64, perms: u64) -> Item
        requires { reserved_level perms < 2 ^ 64 }
        ensures { result ≡ Item.Table va (reserved_level perms) }
    {
        Item::Table {
            va,
            level: 8 + perms,
        }
    }
}
