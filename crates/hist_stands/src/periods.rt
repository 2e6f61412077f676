//! Laws: what a legal history tells of its states.

ghost use Rattle.hist_stands.specs.Laws.{HistoryIsKnown, PeriodsBegin, PeriodsGoOn};

/// The entries of a legal history tell of the state that they lead to for whom each core runs, when it
/// flushed last, which slots are initialized, and of each owned region whose it is and since when.
pub fn history_is_known()
    ensures { HistoryIsKnown }
{}

/// The periods that are read off a legal history are those of its states: the region was Owned since then, and from
/// then on it lasts, or was blocked, or was freed after each core's flush.
pub fn periods_are_states()
    ensures begin { PeriodsBegin }
    ensures go_on { PeriodsGoOn }
{}
