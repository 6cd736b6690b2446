// An attempt to run a slot and all that it leads to.
#![tactic(auto)]

mod gather; // gather.rt: what an attempt reads of the table
mod waiting; // waiting.rt: whether it may run, and what is to run
mod refusal; // refusal.rt: when it is refused
pub mod attempt; // attempt.rt: the attempt
