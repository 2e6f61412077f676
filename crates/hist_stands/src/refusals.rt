//! Laws: the notes of refusals at held locks, and what follows from them.

ghost use Rattle.hist_stands.specs.Laws.{NotesAtStart, NotesTaken, NotesRefused, NotesDrawn};
ghost use Rattle.hist_stands.specs.Laws.{NotesAlike, StandsBusy, StandsBusyIdle};

/// Where nothing is logged and no core has anything under way, there is nothing to note.
pub fn notes_start()
    ensures { NotesAtStart }
{}

/// A call that finds a held lock makes its note: which call holds the lock, and how many tickets were drawn.
pub fn found_now()
    ensures { NotesRefused }
{}

/// The notes stay as a call takes an object more.
pub fn found_taken()
    ensures { NotesTaken }
{}

/// They stay as any core draws its ticket; the note of a call that was refused becomes that of its entry.
pub fn found_drawn()
    ensures { NotesDrawn }
{}

/// They are notes where each core has the same under way.
pub fn notes_alike()
    ensures { NotesAlike }
{}

/// At any time the logs, with what each core has under way, are busy as they should be.
pub fn stands_busy()
    ensures under_way { StandsBusy }
    ensures idle { StandsBusyIdle }
{}
