// The functions of crates/host for a host in C: one export for each, which calls it and says its contract again.
#![tactic(auto)]

pub mod union; // union.rt: the union of two dependency sets
pub mod fast; // fast.rt: the fast decision on replies
pub mod recovery; // recovery.rt: both recovery choices on votes
pub mod messages; // messages.rt: the handlers on a table's image
pub mod attempt; // attempt.rt: the attempt on a table's image
pub mod log; // log.rt: a log event on a table's image
