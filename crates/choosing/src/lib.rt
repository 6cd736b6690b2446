// The recovery choices on byte slices: numbers and slices in, a number and bytes out.
#![tactic(auto)]

pub mod recovery; // recovery.rt: both recovery choices on votes
