// The attempt.
ghost use Rattle.std.specs.Prelude.{◌≡◌, true, ◌+◌, ◌≤◌, ◌<◌, length};
ghost use Rattle.bounds.specs.Bounds.{table_fits};
ghost use Rattle.table.specs.Place.{index_of};
ghost use Rattle.attempts.specs.Reads.{has_run};
ghost use Rattle.attempts.specs.Attempt.{nothing_ran, unrun, attempt_on, order_on, attempt_of, attempt_order};

use super::{gather, refusal, waiting};
use base::answer::Answer;
use deps::sets::DepSet;
use leads::search::reach;
use order::order::write;
use table::place::Place;
use table::table::Table;

// What an attempt answers, the table after it, and how many slots have run. No Result: the table stands beside a refusal too
// (`attempt_of`).
#[derive(Clone, Copy)]
pub struct Attempted {
    pub answer: Answer,
    pub table: Table,
    pub ran: usize,
}

impl Attempted {
    // No slot has run, and the table is as it was.
    fn without_run(answer: Answer, table: Table) -> Attempted
        ensures { result ≡ nothing_ran answer table }
    {
        Attempted {
            answer,
            table,
            ran: 0,
        }
    }
}

// Runs the slot and all that it leads to that has not run, or nothing. The slots run stand in the order list from its first
// entry on, as 32 * row + column, in the order in which they run.
pub fn attempt(table: Table, at: Place, order: &mut [u8]) -> Attempted
    ensures result { result ≡ attempt_of table at (length order.old) }
    ensures list { order.new ≡ attempt_order table at order.old }
{
    if let Err(refusal) = refusal::of_attempt(table, at, order.len()) {
        let number = refusal.number();
        return Attempted::without_run(Answer::Refused { number }, table);
    }
    attempt_from(table, at, order, 0)
}

// The same where nothing is to be refused, and written on from a place of the list. That the table is within the bounds and the
// list has room is asked here and above, and no type says it: docs/ENTRIES.md names it for any caller, of whom a type would ask
// more.
pub fn attempt_from(table: Table, at: Place, order: &mut [u8], from: usize) -> Attempted
    requires table_value { table_fits table ≡ true }
    requires row_bound { at.row < 7 }
    requires col_bound { at.col < 32 }
    requires table_in_bounds { from + unrun table ≤ length order.old }
    ensures result { result ≡ attempt_on table at }
    ensures list { order.new ≡ order_on table at from order.old }
{
    if has_run(table, at) {
        return Attempted::without_run(Answer::Already, table);
    }
    let deps = gather::deps(table);
    let reached = reach(&deps, DepSet::EMPTY, at.row, at.col);
    if !waiting::is_below_bars(table, reached) {
        return Attempted::without_run(Answer::NotYet, table);
    }
    let todo = waiting::waiting(table, reached);
    let seqs = gather::seqs(table);
    let end = write(&deps, &seqs, &todo, order, from);
    Attempted {
        answer: Answer::Done,
        table: waiting::run(table, todo),
        ran: end - from,
    }
}

#[tactic(auto, using(crate::proofs::ReadLaws::held_index))]
fn has_run(table: Table, at: Place) -> bool
    requires row_bound { at.row < 7 }
    requires col_bound { at.col < 32 }
    ensures { result ≡ has_run table (index_of at) }
{
    table.holds(at) && table.slot(at).has_run()
}
