// What all decisions share: what replies and votes say, what is decided, who holds enough identical ones.
#![tactic(auto)]

pub mod contents; // contents.rt: what a reply or vote says
pub mod answer; // answer.rt: what is decided
pub mod holder; // holder.rt: what is decided with a replica's words
pub mod identical; // identical.rt: the count of identical entries
