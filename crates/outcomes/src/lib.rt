// What goes into a call of a handler, and what comes of it.
#![tactic(auto)]

pub mod message; // message.rt: what a peer sends
pub mod output; // output.rt: what a call puts out
pub mod outcome; // outcome.rt: answer, table and output of a call
pub mod refusal; // refusal.rt: the first refusal, in the order of their numbers
