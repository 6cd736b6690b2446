// The fast decision on byte slices: numbers and slices in, a number and bytes out.
#![tactic(auto)]

pub mod codes; // codes.rt: the number that a C function returns
pub mod answers; // answers.rt: what is decided, written to the host's slice
pub mod fast; // fast.rt: the fast decision on replies
