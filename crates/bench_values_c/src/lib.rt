// The entries by value of crates/bench_values for bench/run: an export that calls it and says its contract again.
#![tactic(auto)]

pub mod values; // values.rt: one event on the table of an image, again and again
