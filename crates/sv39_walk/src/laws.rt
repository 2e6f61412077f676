//! Laws of walks. No code here runs.

ghost use Rattle.sv39_walk.specs.Laws.{EndsByRelation, WishesByRelation, OneAnswer, AlwaysAnswers, AddressesArePlaces};

/// Whatever ptes answer a walk, it asks for them at the relation's addresses and ends as the relation says.
pub fn walks_are_the_relation()
    ensures ends { EndsByRelation }
    ensures wishes { WishesByRelation }
{}

/// Walks whose ptes begin alike are alike, so the relation gives one answer.
pub fn relation_gives_one_answer()
    ensures { OneAnswer }
{}

/// The relation has an answer for every three ptes.
pub fn relation_always_answers()
    ensures { AlwaysAnswers }
{}

/// In a table on a page of DRAM, a pte's address is that of the word at its place.
pub fn addresses_are_places()
    ensures { AddressesArePlaces }
{}
