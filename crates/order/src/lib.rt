// The order in which slots run.
#![tactic(auto)]

mod heads; // heads.rt: each row's first slot that is to be written
mod ready; // ready.rt: which of the heads is ready
mod entries; // entries.rt: a slot put in its place in the list
pub mod order; // order.rt: component after component
