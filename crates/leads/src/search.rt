// The search: from a slot to its dependencies, and from each dependency to its slot.
//
// What is seen is a prefix of every row, since each slot leads to those before it in its row: a set whose column in a row is
// the last that is seen there. The dependency sets of all slots are lent, seven numbers each, 0 for nothing, c + 1 for column c:
// so `Valid` and `frontier` speak of them. That they are valid is asked in each contract, and no type: `reach` is for any caller's
// numbers (docs/ENTRIES.md), of whom a type would ask more. Row and column go apart, since `Place` stands above, in table.
// What is seen is lent too and grows in place: handed on by value, its seven bytes would be written and read again in every call.
ghost use Rattle.std.specs.Prelude.{◌≡◌, ◌+◌, ◌*◌, ◌≤◌, ◌<◌, length};
ghost use Rattle.leads.specs.Depends.{Valid};
ghost use Rattle.leads.specs.Frontier.{frontier};
ghost use Rattle.leads.specs.Search.{Start, Visited, Passed};

use deps::sets::DepSet;

// What the slot leads to. The search goes on from what an earlier slot of its row leads to, or begins with nothing seen.
pub fn reach(deps: &[u8; 1568], from: DepSet, row: usize, col: usize) -> DepSet
    requires valid { Valid deps.now }
    requires row_bound { row < 7 }
    requires col_bound { col < 32 }
    requires start { Start deps.now row col from.cols }
    ensures { result.cols ≡ frontier deps.now (32 * row + col) }
{
    let mut seen = from.cols;
    visit(deps, &mut seen, row, (col + 1) as u8);
    DepSet { cols: seen }
}

// Visits the first k slots of a row, the lowest that is not seen first, and sees all that they lead to.
#[cycle(rows_visit)]
fn visit(deps: &[u8; 1568], seen: &mut [u8; 7], row: usize, k: u8)
    requires valid { Valid deps.now }
    requires seen_len { length seen.old ≡ 7 }
    requires row_bound { row < 7 }
    requires k_bound { k ≤ 32 }
    ensures { Visited deps.now row k seen.old seen.new }
{
    let col = seen[row];
    if col < k {
        seen[row] = col + 1;
        rows(deps, seen, 32 * row + col as usize);
        if seen[row] < k {
            visit(deps, seen, row, k);
        }
    }
}

// Goes through the dependency rows of slot i, and visits what it depends on in each.
#[cycle(rows_visit)]
fn rows(deps: &[u8; 1568], seen: &mut [u8; 7], i: usize)
    requires valid { Valid deps.now }
    requires seen_len { length seen.old ≡ 7 }
    requires i_bound { i < 224 }
    ensures { Passed deps.now i seen.old seen.new }
{
    for row in 0..7 {
        let named = deps[7 * i + row];
        if seen[row] < named {
            visit(deps, seen, row, named);
        }
    }
}
