// Which of the heads is ready.
ghost use Rattle.std.specs.Prelude.{◌<◌, MatchOption};
ghost use Rattle.order.specs.Heads.{LeadsTo, ReadyRow, NextRow, Decides};

use super::heads::{Head, Heads};

// The lowest row whose head is ready.
pub(crate) fn next_row(heads: Heads) -> Option<usize>
    ensures { MatchOption result (NextRow heads.rows 7) (λ row. (row < 7) × NextRow heads.rows row) }
{
    (0..7).find(|&row| is_ready(heads, row))
}

// Whether a row has a head, and every other head lets it go first.
fn is_ready(heads: Heads, row: usize) -> bool
    requires { row < 7 }
    ensures { Decides (ReadyRow heads.rows row) result }
{
    let mine = heads.rows[row];
    mine.col < 32 && (0..7).all(|other| lets(heads.rows[other], other, mine, row))
}

// Whether another row's head lets this row's go first: where this one leads to it, it leads back.
fn lets(theirs: Head, other: usize, mine: Head, row: usize) -> bool
    requires row_bound { row < 7 }
    requires other_bound { other < 7 }
    ensures { Decides (LeadsTo mine other theirs.col → LeadsTo theirs row mine.col) result }
{
    mine.reach.cols[other] <= theirs.col || mine.col < theirs.reach.cols[row]
}
