// What went before under a key: the columns kept per key, and what a batch waits for by them.
#![tactic(auto)]

pub mod columns; // columns.rt: the columns, identify and refresh
