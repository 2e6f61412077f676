//! The laws: each fact holds at the start of every machine, and after each call of a core of the
//! machine, whatever the call is and whichever ticket it has.

ghost use Rattle.mon_facts.specs.Laws.{StartHasTables, TablesStay, StartIsDated, DatesStay, DatesStayUnused, StartHasFacts, FactsStay};

/// The tables are as long as the machine's shape says, each core that is inside an enclave names slots
/// that are there, and no slot has more items than there are pages below the next that it may take.
pub fn tables_stay()
    ensures first { StartHasTables }
    ensures next { TablesStay }
{}

/// No region has a ticket that was not drawn yet, and each Blocked one was owned before it was blocked.
pub fn dates_stay()
    ensures first { StartIsDated }
    ensures next { DatesStay }
    ensures unused { DatesStayUnused }
{}

/// Sets of regions, thread counts, cores inside enclaves, loaded items and roots agree with one another.
pub fn facts_stay()
    ensures first { StartHasFacts }
    ensures next { FactsStay }
{}
