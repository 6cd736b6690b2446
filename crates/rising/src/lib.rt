// The commit bars, and the attempts below them.
#![tactic(auto)]

mod bars; // bars.rt: the commit bars
pub mod tails; // tails.rt: the attempts below the bars
pub mod committed; // committed.rt: what a slot logged Committed sets going
