// What a slot leads to: all reached over dependencies and earlier neighbours.
#![tactic(auto)]

pub mod search; // search.rt: visiting a slot, and going through its dependency rows
