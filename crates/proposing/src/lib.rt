// What a message with contents does to the table.
#![tactic(auto)]

pub mod proposals; // proposals.rt: PreAccept, Accept, CommitNotice
