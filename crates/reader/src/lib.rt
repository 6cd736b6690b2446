// The reader of a trace, which holds the trace and its place.
#![tactic(auto)]

pub mod next; // next.rt: the next event of a trace, for whoever has the trace and a place
pub mod places; // places.rt: how much comes from a place on
pub mod reader; // reader.rt: a trace and a place in it, in one struct
