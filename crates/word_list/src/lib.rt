//! All words that the cores of a machine share, as plain memory of one owner: the ticket counter, lock words, rows and
//! DRAM in one list, on which one move is made after the other; and the records that the rows hold in the end.
#![tactic(auto)]

mod laws;
mod layout;
mod list;
mod moves;
mod pieces;
mod records;
mod room;
mod tables;
#[cfg(test)]
mod tests;

pub use laws::{list_has_places, moves_on_the_list, tables_are_those_of_a_run};
pub use list::WordList;
pub use tables::Tables;
