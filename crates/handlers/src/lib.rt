// What the other messages do to the table, and a Lead.
#![tactic(auto)]

pub mod replies; // replies.rt: AcceptReply
pub mod prepare; // prepare.rt: ExpPrepare
pub mod lead; // lead.rt: Lead
