// What a handler looks at in a table, and what it makes of it: so a handler is said once, for a table by value and for its
// image.
#![tactic(auto)]

pub mod view; // view.rt: what a handler looks at
pub mod change; // change.rt: what it makes of the table
