// Refusal 1: whether a table is within the bounds; and 2 and 3 of a place in it.
ghost use Rattle.std.specs.Prelude.{◌≡◌};
ghost use Rattle.base.specs.Refusals.{first_refusal, refused_number};
ghost use Rattle.bounds.specs.Bounds.{row_fits, rows_fit, slots_fit, table_fits, place_tests_in, place_refusal};

use super::shown::Shown;
use base::refusals::Refusal;
use table::place::Place;
use table::table::Table;

// The one test, for every entry.
#[tactic(auto, unfolding(crate::specs::Bounds::table_fits))]
pub fn fits<S: Shown>(shown: &S) -> bool
    ensures { result ≡ table_fits (S.table shown.now) }
{
    let config = shown.config();
    config.fits()
        && rows_fit(config.n, shown.lens(), shown.bars())
        && slots_fit(shown)
        && shown.keys().fits(config.n)
}

// The first refusal of a place: of the table, of the row, of the column.
#[tactic(auto, unfolding(crate::specs::Bounds::place_refusal))]
pub fn refusal(table: Table, at: Place) -> Result<(), Refusal>
    ensures { refused_number result ≡ place_refusal table at }
{
    of_place(fits(&table), table.config.n, at)
}

// The same, of what is known of a table: whether it is within the bounds, and how many rows it has. The two apart, as
// docs/ENTRIES.md names it; a view has both among others.
#[tactic(auto, unfolding(base::specs::Refusals::first_refusal))]
pub fn of_place(within: bool, n: usize, at: Place) -> Result<(), Refusal>
    ensures { refused_number result ≡ first_refusal (place_tests_in within n at) }
{
    if !within {
        return Err(Refusal::OutsideBounds);
    }
    if n <= at.row {
        return Err(Refusal::NoReplica);
    }
    if 32 <= at.col {
        return Err(Refusal::NoColumn);
    }
    Ok(())
}

// Every slot that the table holds; the others are not looked at.
fn slots_fit<S: Shown>(shown: &S) -> bool
    ensures { result ≡ slots_fit (S.table shown.now) }
{
    let config = shown.config();
    let lens = shown.lens();
    for i in 0..224 {
        if i % 32 < lens[i / 32] && !shown.slot_fits(i, config.n) {
            return false;
        }
    }
    true
}

// Every row's length and bar.
pub fn rows_fit(n: usize, lens: [usize; 7], bars: [usize; 7]) -> bool
    ensures { result ≡ rows_fit n lens bars }
{
    (0..7).all(|row| row_fits(n, row, lens[row], bars[row]))
}

// At most 32 slots, and none in a row n or more; the bar not past them.
#[tactic(auto, unfolding(crate::specs::Bounds::row_fits))]
fn row_fits(n: usize, row: usize, len: usize, bar: usize) -> bool
    ensures { result ≡ row_fits n row len bar }
{
    let room = if row < n { 32 } else { 0 };
    len <= room && bar <= len
}
