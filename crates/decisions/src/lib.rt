// What a leader does next with the replies to a PreAccept.
#![tactic(auto)]

pub mod fast; // fast.rt: the fast decision
