// What of the replies and votes of a decision is refused.
#![tactic(auto)]

pub mod refusal; // refusal.rt: the number of the refusal, if any
