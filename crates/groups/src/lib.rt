// Numbers of a trace: groups of seven bits, low group first.
#![tactic(auto)]

pub mod numbers; // numbers.rt: a number read from a place on, and one written
pub mod cursor; // cursor.rt: one number after the other, up to the first refusal
