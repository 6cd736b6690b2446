// The heads of the rows: each row's first slot that is to be written, found and moved on.
ghost use Rattle.std.specs.Prelude.{◌≤◌, ◌<◌, max, MatchOption};
ghost use Rattle.leads.specs.Depends.{Valid};
ghost use Rattle.leads.specs.Search.{Start};
ghost use Rattle.order.specs.Heads.{Low, FirstFrom, HeadAt, HeadsFrom, Held, past};

use deps::sets::DepSet;
use leads::search;
use std::array;

// A row's first slot that is to be written: its column, 32 for none, and what it leads to. The column is no Option: 32 stands past
// every slot of the row, so that heads are compared with prefixes, and moved on, with no case for none.
#[derive(Clone, Copy)]
pub struct Head {
    pub col: u8,
    pub reach: DepSet,
}

#[derive(Clone, Copy)]
pub struct Heads {
    pub rows: [Head; 7],
}

// The heads where nothing is written yet.
pub(crate) fn begin(deps: &[u8; 1568], todo: &[bool; 224]) -> Heads
    requires { Valid deps.now }
    ensures { HeadsFrom deps.now todo.now (λ row. 0) result.rows }
{
    Heads {
        rows: array::from_fn(|row| first_head(deps, todo, row)),
    }
}

// A row's head where nothing is written yet.
fn first_head(deps: &[u8; 1568], todo: &[bool; 224], row: usize) -> Head
    requires valid { Valid deps.now }
    requires row_bound { row < 7 }
    ensures { HeadAt deps.now todo.now row 0 result.col result.reach.cols }
{
    let none = Head {
        col: 0,
        reach: DepSet::EMPTY,
    };
    moved(deps, todo, none, row, 0)
}

// The heads where all that is reached is written.
pub(crate) fn advance(deps: &[u8; 1568], todo: &[bool; 224], heads: Heads, reach: DepSet) -> Heads
    requires valid { Valid deps.now }
    requires held { Held deps.now todo.now heads.rows }
    requires low { Low reach.cols }
    ensures { HeadsFrom deps.now todo.now (past heads.rows reach.cols) result.rows }
{
    Heads {
        rows: array::from_fn(|row| moved_past(deps, todo, heads.rows[row], row, reach.cols[row])),
    }
}

// A row's head, moved on where it stands before a column.
fn moved_past(deps: &[u8; 1568], todo: &[bool; 224], head: Head, row: usize, end: u8) -> Head
    requires valid { Valid deps.now }
    requires row_bound { row < 7 }
    requires end_bound { end ≤ 32 }
    requires head_at { HeadAt deps.now todo.now row head.col head.col head.reach.cols }
    ensures { HeadAt deps.now todo.now row (max head.col end) result.col result.reach.cols }
{
    if head.col < end {
        moved(deps, todo, head, row, end as usize)
    } else {
        head
    }
}

// A row's head, moved on to the first slot from a column on that is to be written.
fn moved(deps: &[u8; 1568], todo: &[bool; 224], head: Head, row: usize, from: usize) -> Head
    requires valid { Valid deps.now }
    requires row_bound { row < 7 }
    requires from_bound { from ≤ 32 }
    requires start { Start deps.now row from head.reach.cols }
    ensures { HeadAt deps.now todo.now row from result.col result.reach.cols }
{
    match first_from(todo, row, from) {
        Some(col) => {
            let reach = search::reach(deps, head.reach, row, col);
            Head {
                col: col as u8,
                reach,
            }
        }
        None => Head {
            col: 32,
            reach: head.reach,
        },
    }
}

// The first column of a row, from one on, whose slot is to be written.
fn first_from(todo: &[bool; 224], row: usize, from: usize) -> Option<usize>
    requires row_bound { row < 7 }
    requires from_bound { from ≤ 32 }
    ensures { MatchOption result (FirstFrom todo.now row from 32) (λ col. (col < 32) × FirstFrom todo.now row from col) }
{
    (from..32).find(|col| todo[32 * row + col])
}
