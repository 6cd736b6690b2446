// Runs, of kind 6: configuration; events on a table that begins empty, each with the number of its answer, with its records
// and, of a Logged and an Attempt, with the slots that it runs; and then the table after the last.
use super::list::List;
use super::outcome::{Outcome, are_all};
use super::ran::same_ran;
use super::records::same_output;
use super::tables::same_table;
use base::numbers::size;
use bounds::open::open;
use deciding::codes::DONE;
use steps::step::step;
use table::table::Table;

// What fills the order list before an event, so that what is written shows: no slot has this number.
const NO_SLOT: u8 = 255;

// No run of the list has more events.
const EVENTS: u64 = 255;

pub(crate) fn case(list: &mut List) -> Option<Outcome> {
    let config = list.config()?;
    let events = list.number(EVENTS)?;
    let opened = open(
        size(config.n),
        size(config.own),
        size(config.simple),
        size(config.sup),
    );
    let mut table = opened.table;
    let mut outcome = Outcome {
        answers: opened.answer.number(),
        listed: DONE, // a table is opened, since every configuration of the list is within the bounds
        agree: true,
    };
    for _ in 0..events {
        let later = event(list, config.n, &mut table)?;
        outcome = outcome.then(later);
    }
    let agree = same_table(list, config.n, &table)?;
    Some(outcome.then(Outcome { agree, ..outcome }))
}

// What one event does to the table, beside what the list has of it.
fn event(list: &mut List, n: u64, table: &mut Table) -> Option<Outcome> {
    let event = list.event(n)?;
    let mut order = [NO_SLOT; 224];
    let did = step(*table, event, &mut order);
    *table = did.outcome.table;
    let listed = list.any()?;
    let same_records = same_output(list, n, did.outcome.output)?;
    let (ran, rest) = order.split_at(did.ran.min(224));
    let same_slots = same_ran(list, event, ran)?;
    let untouched = are_all(rest, NO_SLOT);
    Some(Outcome {
        answers: did.outcome.answer.number(),
        listed,
        agree: same_records && same_slots && untouched,
    })
}
