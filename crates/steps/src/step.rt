// One event.
ghost use Rattle.std.specs.Prelude.{◌≡◌, length};
ghost use Rattle.attempts.specs.Attempt.{attempt_of, attempt_order};
ghost use Rattle.steps.specs.Calls.{call_of};
ghost use Rattle.steps.specs.Step.{step_of, step_order, tried};

use super::event::Event;
use attempts::attempt::attempt;
use handlers::lead::lead;
use handlers::prepare::exp_prepare;
use handlers::replies::accept_reply;
use logged::logged::{LogOutcome, logged};
use outcomes::outcome::Outcome;
use outcomes::output::Output;
use proposing::proposals::{accept, commit_notice, pre_accept};
use table::place::Place;
use table::table::Table;

// What any event does has the form of what a log event does: the handlers run nothing, and an attempt puts nothing out. The list of
// what ran is lent, since there is no heap, and the outcome says how much of it is written.
pub fn step(table: Table, event: Event, order: &mut [u8]) -> LogOutcome
    ensures result { result ≡ step_of table (call_of event) (length order.old) }
    ensures list { order.new ≡ step_order table (call_of event) order.old }
{
    match event {
        Event::PreAccept(proposal) => pre_accept(table, proposal).into(),
        Event::Accept(proposal) => accept(table, proposal).into(),
        Event::CommitNotice(proposal) => commit_notice(table, proposal).into(),
        Event::AcceptReply(message) => accept_reply(table, message).into(),
        Event::ExpPrepare(message) => exp_prepare(table, message).into(),
        Event::Logged { at, status } => logged(table, at, status, order),
        Event::Attempt(at) => attempted(table, at, order),
        Event::Lead(at) => lead(table, at).into(),
    }
}

fn attempted(table: Table, at: Place, order: &mut [u8]) -> LogOutcome
    ensures result { result ≡ tried (attempt_of table at (length order.old)) }
    ensures list { order.new ≡ attempt_order table at order.old }
{
    let tried = attempt(table, at, order);
    LogOutcome {
        outcome: Outcome {
            answer: tried.answer,
            table: tried.table,
            output: Output::NONE,
        },
        ran: tried.ran,
    }
}
