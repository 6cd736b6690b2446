// What lies in a byte each: dependency sets by row, marks, statuses.
#![tactic(auto)]

pub mod sets; // sets.rt: dependency sets
pub mod marks; // marks.rt: marks and statuses
pub mod known; // known.rt: whether bytes are among those that have a meaning
