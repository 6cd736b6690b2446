// What a slot logged Committed sets going.
ghost use Rattle.std.specs.Prelude.{◌≡◌, true, ◌≤◌, ◌<◌, length};
ghost use Rattle.std.proofs.lemmas.List.Edits.{sets};
ghost use Rattle.bounds.specs.Bounds.{table_fits};
ghost use Rattle.attempts.specs.Attempt.{unrun};
ghost use Rattle.rising.specs.Attempts.{is_not_yet, attempts_on, ran_from};
ghost use Rattle.rising.specs.Committed.{attempted_from, on_committed};

use super::tails::Ran;
use super::{bars, tails};
use attempts::attempt::attempt_from;
use base::answer::Answer;
use table::place::Place;
use table::table::Table;

// Where the column is the row's bar the bar rises, and then slots below the bars are attempted.
pub fn committed(table: Table, at: Place, order: &mut [u8]) -> Ran
    requires table_value { table_fits table ≡ true }
    requires row_bound { at.row < 7 }
    requires table_in_bounds { unrun table ≤ length order.old }
    ensures result { result ≡ ran_from 0 (on_committed table at) }
    ensures list { order.new ≡ sets order.old 0 (on_committed table at).wrote }
{
    // taken out first: an index into a table that is passed by value copies all of it
    let bars = table.bars;
    let bar = bars[at.row];
    if at.col != bar {
        return Ran { table, end: 0 };
    }
    let risen = bars::risen(table, at.row);
    if risen <= bar {
        return Ran { table, end: 0 };
    }
    let tail = Place {
        row: at.row,
        col: risen - 1,
    };
    attempt_below(bars::raise(table, tail), tail, order)
}

// The slot below the bar that rose and, unless it is NotYet, each row's.
fn attempt_below(table: Table, tail: Place, order: &mut [u8]) -> Ran
    requires table_value { table_fits table ≡ true }
    requires row_bound { tail.row < 7 }
    requires col_bound { tail.col < 32 }
    requires table_in_bounds { unrun table ≤ length order.old }
    ensures result { result ≡ ran_from 0 (attempts_on table (attempted_from table tail)) }
    ensures list { order.new ≡ sets order.old 0 (attempts_on table (attempted_from table tail)).wrote }
{
    let tried = attempt_from(table, tail, order, 0);
    if is_not_yet(tried.answer) {
        return Ran {
            table: tried.table,
            end: tried.ran,
        };
    }
    tails::attempt_tails(tried.table, order, tried.ran)
}

fn is_not_yet(answer: Answer) -> bool
    ensures { result ≡ is_not_yet answer }
{
    matches!(answer, Answer::NotYet)
}
