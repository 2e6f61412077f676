//! Laws: what stands of the logs, at the start and after each event that a core logs.

ghost use Rattle.hist_stands.specs.Laws.{StandsAtStart, StandsAfterEntry, StandsAfterTouch, StandsAfterStop, StandsAlike};

/// Where no core has logged anything, it stands.
pub fn stands_start()
    ensures { StandsAtStart }
{}

/// It stands after an entry of a core of the machine, which has the next ticket and its core's next serial, and is
/// what the sequential monitor does now.
pub fn stands_drawn()
    ensures { StandsAfterEntry }
{}

/// It stands after a touch that finds its region Owned now by the OS, or by the enclave that the core is inside, where
/// the core has not touched that period since its last clearing entry.
pub fn stands_touched()
    ensures { StandsAfterTouch }
{}

/// It stands after a stop.
pub fn stands_stopped()
    ensures { StandsAfterStop }
{}

/// What stands of some logs stands of logs that are the same for each core of the machine.
pub fn stands_alike()
    ensures { StandsAlike }
{}
