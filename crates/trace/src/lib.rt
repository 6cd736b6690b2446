// A whole trace.
#![tactic(auto)]

pub mod run; // run.rt: a trace from its header to its end, and the text that says what came of it
mod turn; // turn.rt: one event of a trace
