// What an edit waits for and what it touches: dependency sets and batches of requests.
#![tactic(auto)]

pub mod sets; // sets.rt: per row nothing or a column
pub mod batches; // batches.rt: kinds, requests, batches
