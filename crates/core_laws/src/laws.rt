//! The laws, from one core's next move to whole runs.

ghost use Rattle.hist.specs.Legal.{HasLastTables};
ghost use Rattle.core_laws.specs.Finished.{IsLegal, IsBusy, IsSafe, HasZeros, HasLoadedPages, HasReadPages, IsOneHistory};
ghost use Rattle.core_laws.specs.Laws.{ImagesAreMachines, ScriptsAreWide, NextIsPermitted, EndIsAtRest, GivenIsRun, WordsStayWords, GivenAreAnswered, SchedulesAreGiven, SchedulesAreOfLines, EverySchedule};

/// Images and scripts that are read are those of which the laws speak.
pub fn inputs_are_said()
    ensures images { ImagesAreMachines }
    ensures scripts { ScriptsAreWide }
{}

/// Wherever a core has begun its lines, with whatever outcomes its moves may have, what it does next is permitted, and
/// at its end no call is under way.
pub fn lines_are_permitted()
    ensures next { NextIsPermitted }
    ensures end { EndIsAtRest }
{}

/// A list of moves that are given from the start, in which each core makes the moves with which its lines begin, is a
/// list of permitted moves; each shared word behind it has 64 bits, and each move an outcome that it may have.
pub fn given_runs()
    ensures permitted { GivenIsRun }
    ensures words { WordsStayWords }
    ensures answered { GivenAreAnswered }
{}

/// The moves that a list of core numbers gives are given from the start, and each core's are those with which its lines
/// begin.
pub fn schedules()
    ensures given { SchedulesAreGiven }
    ensures of_lines { SchedulesAreOfLines }
{}

/// For every image, script and list of core numbers, of the finished run: its entries are one legal history; its tables
/// are the last state of that; each refusal named a call that had taken the lock; its touches are safe; Free and Offered
/// regions hold zeros, and the regions of Loading enclaves what `LoadedPages` says; each page that was read stands in
/// its core's answers.
pub fn every_schedule()
    ensures legal { EverySchedule IsLegal }
    ensures tables { EverySchedule HasLastTables }
    ensures busy { EverySchedule IsBusy }
    ensures safe { EverySchedule IsSafe }
    ensures zeros { EverySchedule HasZeros }
    ensures loading { EverySchedule HasLoadedPages }
    ensures read { EverySchedule HasReadPages }
{}

/// The same as one record.
pub fn finished_is_one_history()
    ensures { EverySchedule IsOneHistory }
{}
