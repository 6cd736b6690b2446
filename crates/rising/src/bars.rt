// The commit bars.
ghost use Rattle.std.specs.Prelude.{◌≡◌, true, ◌+◌, ◌<◌};
ghost use Rattle.bounds.specs.Bounds.{table_fits};
ghost use Rattle.rising.specs.Bars.{risen_bar, with_bar};

use base::status::Status;
use table::place::Place;
use table::table::Table;

// The first column from the row's bar on whose slot is absent or below Committed.
#[tactic(auto, using(bounds::proofs::BoundLaws::len_at_most))]
pub(crate) fn risen(table: Table, row: usize) -> usize
    requires table_value { table_fits table ≡ true }
    requires row_bound { row < 7 }
    ensures { result ≡ risen_bar table row }
{
    for col in table.bars[row]..table.lens[row] {
        if table.slots[32 * row + col].status.rank() < Status::Committed.rank() {
            return col;
        }
    }
    table.lens[row]
}

// The bar right above the slot.
pub(crate) fn raise(table: Table, tail: Place) -> Table
    requires row_bound { tail.row < 7 }
    requires col_bound { tail.col < 32 }
    ensures { result ≡ with_bar table tail.row (tail.col + 1) }
{
    let mut out = table;
    out.bars[tail.row] = tail.col + 1;
    out
}
