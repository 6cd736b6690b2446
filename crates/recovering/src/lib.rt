// What a leader does next with the votes that a prepare has gathered, by the Rust's counts or by the paper's.
#![tactic(auto)]

pub mod recovery; // recovery.rt: both recovery choices
