// How numbers and batches lie in byte slices: what is read from a place on, and what is written there.
#![tactic(auto)]

pub mod numbers; // numbers.rt: bytes, and numbers of two and of eight bytes
pub mod batches; // batches.rt: requests and batches
