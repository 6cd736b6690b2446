// The handlers on a table's image.
#![tactic(auto)]

pub mod calls; // calls.rt: a handler called on an image
