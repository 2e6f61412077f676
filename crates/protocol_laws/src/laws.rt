//! The laws, subject by subject.

ghost use Rattle.protocol_laws.specs.Sound.{StartIsSound, StaysSound};
ghost use Rattle.protocol_laws.specs.Safe.{CallsAreSafe};

/// What calls rely on of a state holds at the start, and after each call of any core.
pub fn states_are_sound()
    ensures first { StartIsSound }
    ensures next { StaysSound }
{}

/// A call owes nothing that it cannot give, at any of its moves, whatever other cores do between them: it reads
/// and writes rows that it holds, loads and stores words that it keeps or that are the OS's, its entry is the
/// sequential monitor's, its tried objects are those of the plan, its page is what it has loaded, and what it gives
/// back stands in the words as state and content have it.
pub fn calls_are_safe()
    ensures { CallsAreSafe }
{}
