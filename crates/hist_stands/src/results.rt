//! Laws: what follows for the logs, wherever it stands.

ghost use Rattle.hist_stands.specs.Laws.{StandsHistory, StandsLegal, LegalLogsStand, StandsCounted};
ghost use Rattle.hist_stands.specs.Laws.{StandsSafe, StandsSafeLog, StandsHeld};

/// The logs are legal, and their history is the one that is kept.
pub fn stands_legal()
    ensures history { StandsHistory }
    ensures logs { StandsLegal }
{}

/// The other way round: legal logs stand, where each touch in them has a stamp.
pub fn legal_logs_stand()
    ensures { LegalLogsStand }
{}

/// The tickets drawn are no more than the machine's cores times the entries that a core may have.
pub fn stands_counted()
    ensures { StandsCounted }
{}

/// Each touch is safe, in each log and so in all of them: its period exists, the core's entries round it have tickets
/// before the block and after the beginning, its owner is the OS or the enclave that the core is inside, a period that
/// was freed has the core's flush between, and equal touches have a clearing entry between them.
pub fn stands_safe()
    ensures core { StandsSafe }
    ensures logs { StandsSafeLog }
{}

/// A touch that no clearing entry followed is held now: the region is Owned since the period began, or Blocked at a
/// ticket that the core's flush ticket is below.
pub fn stands_held()
    ensures { StandsHeld }
{}
