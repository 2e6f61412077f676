//! What the pages of Loading enclaves hold, read off the history, and that it agrees with the loaded
//! items. No code here runs: the definitions stand in `specs/`, and each function is a law that its
//! contract states.
#![tactic(auto)]

mod laws;

pub use laws::{
    asks_word_by_word, content_stays, history_reaches, page_holds_words, paths_agree, words_decide,
};
