// A table within the bounds, the highest sequence of a set in it, and a table to begin with.
#![tactic(auto)]

pub mod shown; // shown.rt: a table that can be looked at, wherever it stands
pub mod bounds; // bounds.rt: refusal 1, and 2 and 3 of a place
pub mod highest; // highest.rt: the highest sequence of a set
pub mod open; // open.rt: an empty table of any four numbers
