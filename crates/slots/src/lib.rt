// One slot of a row.
#![tactic(auto)]

pub mod slot; // slot.rt: a slot, by value
