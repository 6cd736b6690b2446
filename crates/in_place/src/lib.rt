// What a handler looks at in a table and what it makes of it, in the table's bytes: no table by value.
#![tactic(auto)]

pub mod view; // view.rt: what a handler looks at
pub mod change; // change.rt: what it makes of the table
