// The words that all layers share.
#![tactic(auto)]

pub mod refusals; // refusals.rt: their numbers
pub mod answer; // answer.rt: what a call answers
pub mod config; // config.rt: population, own number, quorums
pub mod status; // status.rt: how far a slot has come
pub mod log_status; // log_status.rt: what was logged
pub mod marks; // marks.rt: marks by replica
pub mod numbers; // numbers.rt: a number as a size
