//! The laws, subject by subject.

ghost use Rattle.mon_records.specs.RebuiltLaws.{FactsMakeReadable, RowsAreLong, FoundStays, RebuiltAnswers, RebuiltTries, RebuiltChanges, NothingFoundBegins, FirstFoundSettles};
ghost use Rattle.mon_records.specs.ItemLaws.{TriesWithoutItems, AnswersWithoutItems, ChangesWithoutItems, RowsWithoutItems};
ghost use Rattle.mon_records.specs.RangeLaws.{StartIsInRange, RecordsStayInRange};
ghost use Rattle.mon_records.specs.EarlyLaws.{EarlyWordsFit, EarlyWordsStay, ChangedOwnedAreEarly};
ghost use Rattle.mon_records.specs.AnswerLaws.{OneAnswers, AnsweredBefore, FreedRegions};

/// Every state of the monitor has records that come back from their rows, each as long as its object's
/// rows are.
pub fn states_are_readable()
    ensures readable { FactsMakeReadable }
    ensures long { RowsAreLong }
{}

/// The state that is rebuilt from the rows that a call has found stands for every state that has them,
/// whatever is loaded there: it answers the same, tries the same and makes the same rows. Its plan is
/// right from the first object on, and what was found stays right as long as those objects do.
pub fn rebuilt_states_stand_for_all()
    ensures answers { RebuiltAnswers }
    ensures objects { RebuiltTries }
    ensures rows { RebuiltChanges }
    ensures begins { NothingFoundBegins }
    ensures settles { FirstFoundSettles }
    ensures stays { FoundStays }
{}

/// Without its items a state tries the same objects, answers the same where records decide, and makes the
/// same of its tables.
pub fn items_are_apart()
    ensures objects { TriesWithoutItems }
    ensures answers { AnswersWithoutItems }
    ensures tables { ChangesWithoutItems }
    ensures rows { RowsWithoutItems }
{}

/// The records of the monitor are in the ranges of their words, from the start on.
pub fn records_stay_in_range()
    ensures first { StartIsInRange }
    ensures next { RecordsStayInRange }
{}

/// Early own-words go to regions that are tried, withdraw them, and stay; a region that reads Owned changes
/// only with one.
pub fn early_words_fit()
    ensures fit { EarlyWordsFit }
    ensures stay { EarlyWordsStay }
    ensures owned { ChangedOwnedAreEarly }
{}

/// One object at most answers for the words of a region, and after a call it is one that answered before, or
/// took over from one that is tried, or the call has freed the region.
pub fn answers_are_handed_on()
    ensures one { OneAnswers }
    ensures before { AnsweredBefore }
    ensures freed { FreedRegions }
{}
