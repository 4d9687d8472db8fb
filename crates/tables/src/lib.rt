// Tables: the check of a table, the search for a row of it, and the search for rows that show it not closed.
//
// A table is a run of bytes, l to a row. Rows, settings and places are numbered from 0.
#![tactic(auto)]

pub mod closures;
pub mod combine;
pub mod flaws;
pub mod lookup;
pub mod order;
pub mod rows;

pub use closures::open_rows;
pub use flaws::check;

// What is wrong with a table: refusals 1 to 5 of document 01.
#[derive(Clone, Copy)]
pub enum Flaw {
    Limits,
    Length,
    // the number of rows
    Rows(usize),
    // the place of the first value that is not below its setting's size
    Value(usize),
    // the number of the first row that is not above the one before it
    Order(usize),
}

// Rows, ascending, whose combination is no row: they show that a table is not closed.
#[derive(Clone, Copy)]
pub enum Open {
    Pair(usize, usize),
    Triple(usize, usize, usize),
}
