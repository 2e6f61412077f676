//! The laws: the invariant of the protocol holds of every world that a list of permitted moves gives.

ghost use Rattle.protocol.specs.Logs.{EntriesAreLegal, LogsAreSafe};
ghost use Rattle.protocol.specs.Records.{LocksNameHolders, FreeRowsStand, HeldRowsStand, OwnWordsAreTrue, TouchesHold};
ghost use Rattle.protocol.specs.Contents.{LoadingHold, IdleHoldZeros};
ghost use Rattle.protocol.specs.Passes.{MoveIsGiven};
ghost use Rattle.protocol.specs.Invariant.{GivenStands, MoveKeeps, PermittedHasRight, PermittedIsPlaced};
ghost use Rattle.protocol_steps.specs.Laws.{Always, InvariantAtStart, LeftIsPermitted, CallsGoOn};
ghost use Rattle.protocol_steps.specs.Rest.{RestsWhereNoCallIs};

/// In every world that a list of permitted moves gives, from any words of DRAM at the start: the entries are a
/// legal history with the tickets drawn, and no core has more than 16,384 (item 2); a lock word that is not 0
/// names the core that holds the object, and its call under way (item 3); rows of objects that nobody holds are
/// the records of the state (item 4), and so are those that are held, but for what was written early or is still
/// to be written (item 5); own-words that read Owned are true (item 6); a touched period is still the region's, and
/// where it is blocked the core has not flushed since (item 7); a Loading enclave's regions hold what `LoadedPages`
/// says, changed by what the call under way has stored (item 8); Free and Offered regions hold zeros, but for what
/// is still to be zeroed (item 9); and all logs are safe, and busy as they should be with what the cores have under
/// way (item 10).
pub fn moves_keep()
    ensures entries { Always EntriesAreLegal }
    ensures locks { Always LocksNameHolders }
    ensures free_rows { Always FreeRowsStand }
    ensures held_rows { Always HeldRowsStand }
    ensures own_words { Always OwnWordsAreTrue }
    ensures touches { Always TouchesHold }
    ensures loading { Always LoadingHold }
    ensures zeros { Always IdleHoldZeros }
    ensures logs { Always LogsAreSafe }
{}

/// Every state of the invariant's item 1 meets its items 2 to 10.
pub fn given_stands()
    ensures { GivenStands }
{}

/// At the start, where core 0 has the one pass and no core has made a move, all ten items hold.
pub fn invariant_at_start()
    ensures { InvariantAtStart }
{}

/// Each permitted move of a core with a live pass keeps all ten items, and its first is one move more of the list.
pub fn each_move_keeps()
    ensures given { MoveIsGiven }
    ensures all { MoveKeeps }
{}

/// Each permitted move on a word of DRAM has its right: the region is in a touched period, or, for a Load alone, it
/// is the OS's and held, or it is a Loading enclave's that is held, or it was freed by the call that zeroes it. And
/// each permitted move that acts on a word acts on one of the machine.
pub fn moves_are_right()
    ensures right { PermittedHasRight }
    ensures placed { PermittedIsPlaced }
{}

/// Where no call is under way, as when all cores have ended: no lock is held, the rows are the state's records, a
/// Loading enclave's regions hold what `LoadedPages` says, Free and Offered regions hold zeros, and each refusal at
/// a held lock is as it should be.
pub fn all_at_rest()
    ensures { RestsWhereNoCallIs }
{}

/// Whatever a core's moves are: where its call under way has made the moves of a call up to this one, this one is
/// permitted, a Draw too, since no call draws twice. The serial of the call is below 16,384.
///
/// In every world that a list of permitted moves gives: after a permitted move of a call its core is left with what
/// follows the outcome in the call's tree, and no call is under way exactly where that is nothing.
pub fn calls_may_go_on()
    ensures permitted { LeftIsPermitted }
    ensures left { Always CallsGoOn }
{}
