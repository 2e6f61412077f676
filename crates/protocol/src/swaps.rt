//! What a swap's answer tells of its word.

ghost use Rattle.protocol.specs.Moves.{DoneIsStored, AgainIsLeft};

/// Done: the word that was found is the loaded one, and it is the value now. Again: it is another, and it stays.
pub fn swaps_tell()
    ensures done { DoneIsStored }
    ensures again { AgainIsLeft }
{}
