// Numbers, marks and arrays by replica as the host passes them.
#![tactic(auto)]

pub mod slices; // slices.rt: numbers and marks
pub mod sevens; // sevens.rt: arrays by replica
