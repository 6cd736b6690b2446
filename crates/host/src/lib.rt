// The pure functions for a host in C or Rust: numbers and byte slices in, a number and bytes out. C links
// them by the crate host_c.
#![tactic(auto)]

pub mod union; // union.rt: the union of two dependency sets
pub mod fast; // fast.rt: the fast decision on replies
pub mod recovery; // recovery.rt: both recovery choices on votes
pub mod messages; // messages.rt: the handlers on a table's image
pub mod attempt; // attempt.rt: the attempt on a table's image
pub mod log; // log.rt: a log event on a table's image
