//! Lock words.

ghost use Rattle.std.specs.Prelude.{◌≡◌, ℕ, ◌<◌, Some, IfSome};
ghost use Rattle.mon_types.specs.Locks.{lock_word, IsLock};

/// The lock word of a call of this core, below 16, with this serial. It is never 0, the word of a lock
/// that is free.
pub fn pack_lock(core: u8, serial: u32) -> u64
    requires { core < 16 }
    ensures { result ≡ lock_word core serial }
{
    1 + 2 * u64::from(core) + 32 * u64::from(serial)
}

/// The core and the serial of a lock word; None where the word is no call's, as 0.
pub fn unpack_lock(word: u64) -> Option<(u8, u32)>
    ensures found { IfSome result (λ p. IsLock word p.0 p.1) }
    ensures only { (core serial : ℕ) → IsLock word core serial → result ≡ Some (core, serial) }
{
    let serial = u32::try_from(word / 32).ok()?;
    if word % 2 == 1 {
        Some(((word / 2 % 16) as u8, serial))
    } else {
        None
    }
}
