//! The objects that have locks.

ghost use Rattle.std.specs.Prelude.{◌≡◌};
ghost use Rattle.mon_types.specs.Objects.{object_number};

/// A lockable object, by its number among those of its kind.
#[derive(Clone, Copy, Debug, PartialEq, Eq)]
pub enum ObjectId {
    Enclave(u8),
    Thread(u8),
    Region(u8),
    /// The flush clock of a core: the ticket of its last flush.
    Cell(u8),
}

impl ObjectId {
    /// The number by which a reply names the object: enclave slots from 0, thread slots from 16,
    /// regions from 64, cells from 128.
    pub fn number(&self) -> u64
        ensures { result ≡ object_number self.now }
    {
        match *self {
            ObjectId::Enclave(e) => u64::from(e),
            ObjectId::Thread(t) => 16 + u64::from(t),
            ObjectId::Region(r) => 64 + u64::from(r),
            ObjectId::Cell(c) => 128 + u64::from(c),
        }
    }
}

/// The objects that a call tried: a set of bits for each kind, because tried objects always ascend.
#[derive(Clone, Copy, Debug, PartialEq, Eq)]
pub struct Tried {
    pub enclaves: u8,
    pub threads: u16,
    pub regions: u64,
    pub cells: u16,
}
