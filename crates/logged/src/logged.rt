// A log event.
ghost use Rattle.std.specs.Prelude.{◌≡◌, length};
ghost use Rattle.logged.specs.Logged.{none_run, logged_of, logged_order};

use super::replies::{Reply, replied};
use base::log_status::LogStatus;
use base::refusals::Refusal;
use changes::view::look_plain;
use outcomes::outcome::Outcome;
use outcomes::output::Output;
use outcomes::refusal::of_led;
use rising::committed::committed;
use table::place::Place;
use table::table::Table;

// How many entries an order list has to have: one for every slot.
const ENTRIES: usize = 224;

// What a log event does, and how many slots have run, also none beside a refusal (`logged_of`).
#[derive(Clone, Copy)]
pub struct LogOutcome {
    pub outcome: Outcome,
    pub ran: usize,
}

// Of a call that runs no slot.
impl From<Outcome> for LogOutcome {
    ghost from_gives = { λ outcome result. result ≡ none_run outcome };

    fn from(outcome: Outcome) -> LogOutcome {
        LogOutcome { outcome, ran: 0 }
    }
}

// The slot has been logged with this status. The slots run stand in the order list from its first entry on, as 32 * row +
// column, in the order in which they run: the bytes that C lends.
pub fn logged(table: Table, at: Place, status: LogStatus, order: &mut [u8]) -> LogOutcome
    ensures result { result ≡ logged_of table at status (length order.old) }
    ensures list { order.new ≡ logged_order table at status order.old }
{
    if order.len() < ENTRIES {
        return Outcome::refused(table, Refusal::ShortOrder.number()).into();
    }
    let view = look_plain(&table, at);
    if let Err(refusal) = of_led(view.within, view.config.n, view.held, at) {
        return Outcome::refused(table, refusal.number()).into();
    }
    match status {
        LogStatus::PreAccepting => replied(Reply::PreAccept, view, at).apply(table, at).into(),
        LogStatus::Accepting => replied(Reply::Accept, view, at).apply(table, at).into(),
        LogStatus::Committed => {
            let ran = committed(table, at, order);
            LogOutcome {
                outcome: Outcome::done(ran.table, Output::NONE),
                ran: ran.end,
            }
        }
    }
}
