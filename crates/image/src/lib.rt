// The table as bytes of a fixed layout: docs/IMAGE.md.
#![tactic(auto)]

pub mod rows; // rows.rt: configuration, row lengths and bars, key columns
pub mod tables; // tables.rt: the whole table
