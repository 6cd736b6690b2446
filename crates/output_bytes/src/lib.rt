// What a call puts out as bytes of a fixed layout: docs/IMAGE.md.
#![tactic(auto)]

pub mod output; // output.rt: the output and its records
