// The attempts below the bars.
ghost use Rattle.std.specs.Prelude.{◌≡◌, true, ℕ, ◌+◌, ◌≤◌, ◌<◌, [], ◌∷◌, length, get_or, None, option_to_list};
ghost use Rattle.std.proofs.lemmas.List.Edits.{sets};
ghost use Rattle.bounds.specs.Bounds.{table_fits};
ghost use Rattle.attempts.specs.Attempt.{unrun};
ghost use Rattle.rising.specs.Attempts.{attempts_on, ran_from};
ghost use Rattle.rising.specs.Committed.{tail_in, tails_below};

use attempts::attempt::attempt_from;
use base::status::Status;
use std::array;
use table::place::Place;
use table::table::Table;

// A table, and how many entries of the order list are written.
#[derive(Clone, Copy)]
pub struct Ran {
    pub table: Table,
    pub end: usize,
}

// In row order each row's slot below the bar that is Committed, written on from a place of the list.
pub(crate) fn attempt_tails(table: Table, order: &mut [u8], from: usize) -> Ran
    requires table_value { table_fits table ≡ true }
    requires table_in_bounds { from + unrun table ≤ length order.old }
    ensures result { result ≡ ran_from from (attempts_on table (tails_below table 7)) }
    ensures list { order.new ≡ sets order.old from (attempts_on table (tails_below table 7)).wrote }
{
    let mut ran = Ran { table, end: from };
    for tail in tails(table) {
        if let Some(at) = tail {
            ran = attempt_tail(ran, at, order);
        }
    }
    ran
}

// In row order each row's slot right below the bar that is Committed and has not run.
fn tails(table: Table) -> [Option<Place>; 7]
    ensures { (row : ℕ) → row < 7 → option_to_list (get_or result row None) ≡ tail_in table row }
{
    array::from_fn(|row| tail(&table, row))
}

// A row's.
fn tail(table: &Table, row: usize) -> Option<Place>
    requires { row < 7 }
    ensures { option_to_list result ≡ tail_in table.now row }
{
    let bar = table.bars[row];
    if !(1..=32).contains(&bar) {
        return None;
    }
    let col = bar - 1;
    if table.slots[32 * row + col].status != Status::Committed {
        return None;
    }
    Some(Place { row, col })
}

// The attempt on a slot, written on where the list ends.
fn attempt_tail(ran: Ran, at: Place, order: &mut [u8]) -> Ran
    requires table_value { table_fits ran.table ≡ true }
    requires row_bound { at.row < 7 }
    requires col_bound { at.col < 32 }
    requires table_in_bounds { ran.end + unrun ran.table ≤ length order.old }
    ensures result { result ≡ ran_from ran.end (attempts_on ran.table (at ∷ [])) }
    ensures list { order.new ≡ sets order.old ran.end (attempts_on ran.table (at ∷ [])).wrote }
{
    let tried = attempt_from(ran.table, at, order, ran.end);
    Ran {
        table: tried.table,
        end: ran.end + tried.ran,
    }
}
