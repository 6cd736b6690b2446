// The header and the events of a trace, read from a cursor.
#![tactic(auto)]

pub mod fields; // fields.rt: places, messages, dependencies
pub mod batches; // batches.rt: requests and batches
pub mod events; // events.rt: the header, an event
