// Contents and a slot as bytes of a fixed layout: docs/IMAGE.md.
#![tactic(auto)]

pub mod contents; // contents.rt: sequence, dependency set and batch, as one run of bytes
pub mod slot; // slot.rt: a slot
