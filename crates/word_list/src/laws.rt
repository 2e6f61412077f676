//! Laws of the one list of words, and of the records that it holds. No code here runs: each function's contract states
//! some.

ghost use Rattle.protocol.specs.Layout.{IndexIsThere, IndexIsApart, SetIsAtPlace};
ghost use Rattle.protocol.specs.Words.{ListIsThere, FoundIsListed, MoveIsListed};
ghost use Rattle.word_list.specs.Tables.{TablesAreThoseOfARun};

/// Each place of the machine has a place in the list, no two have the same, one word that is changed is one word that
/// is set, and the list that holds what stands at all places is there.
pub fn list_has_places()
    ensures there { IndexIsThere }
    ensures apart { IndexIsApart }
    ensures set { SetIsAtPlace }
    ensures listed { ListIsThere }
{}

/// A move on a word of the machine finds the list's word, and on the list it is the move that it is on the places.
pub fn moves_on_the_list()
    ensures found { FoundIsListed }
    ensures moved { MoveIsListed }
{}

/// The tables and the words of the memory that moves leave are those of the finished run of these moves.
pub fn tables_are_those_of_a_run()
    ensures { TablesAreThoseOfARun }
{}
