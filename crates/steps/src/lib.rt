// What an event of a trace does to the table.
#![tactic(auto)]

pub mod event; // event.rt: the events
pub mod step; // step.rt: one event
