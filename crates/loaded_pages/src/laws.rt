//! The laws: what holds of the content, after each call and each history, and what follows for the
//! words on an address's path.

ghost use Rattle.loaded_pages.specs.Laws.{StartContentHolds, ContentStays, HistoryReaches, PathsAgree, WordsDecide, WordsDecideInHistory, PteGoesLast, RefusedFirst, OkByWords, FitsWhereItLeads, PageHoldsWords, LoadedPageIsRead};

/// Idle regions hold zeros, and the tables of each Loading enclave the ptes of its items: at the start,
/// and after each call, whatever words a load_page reads.
pub fn content_stays()
    ensures first { StartContentHolds }
    ensures next { ContentStays }
{}

/// So it is after any number of entries of a legal history, and with it the facts of the monitor's
/// states.
pub fn history_reaches()
    ensures { HistoryReaches }
{}

/// The words that are found on an address's path in a Loading enclave's pages are those that its items
/// give, up to the first missing table.
pub fn paths_agree()
    ensures { PathsAgree }
{}

/// A call that loads an enclave has, by the words on its path, the reply that it has by the items; where
/// that is Ok, its page-table entry goes to the last place on the path.
pub fn words_decide()
    ensures state { WordsDecide }
    ensures history { WordsDecideInHistory }
    ensures place { PteGoesLast }
{}

/// Such a call may be asked for its reply after each word: it is refused before the first, or goes on
/// exactly where the words lead from table to table.
pub fn asks_word_by_word()
    ensures first { RefusedFirst }
    ensures ok { OkByWords }
    ensures before { FitsWhereItLeads }
{}

/// After an Ok of load_page its page holds the words that were read: in any state, and in any legal history
/// whose entries have read their pages.
pub fn page_holds_words()
    ensures state { PageHoldsWords }
    ensures history { LoadedPageIsRead }
{}
