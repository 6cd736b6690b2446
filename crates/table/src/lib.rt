// What a copy holds: the slots of its rows, its commit bars, the columns kept per key.
#![tactic(auto)]

pub mod place; // place.rt: a row and a column
pub mod table; // table.rt: the table, by value
