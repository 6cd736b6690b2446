// Log events.
#![tactic(auto)]

pub mod replies; // replies.rt: what goes out once a slot is logged PreAccepting or Accepting
pub mod logged; // logged.rt: a log event
