// The entries by value, for bench/run: no part of what a host links. The bench links them by the crate
// bench_values_c.
#![tactic(auto)]

pub mod values; // values.rt: one event on the table of an image, again and again
