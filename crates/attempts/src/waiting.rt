// Whether an attempt may run, and what is to run.
ghost use Rattle.std.specs.Prelude.{◌≡◌, ◌<◌};
ghost use Rattle.attempts.specs.Attempt.{all_below_bars, is_waiting, waiting_in, ran_with};

use deps::sets::DepSet;
use std::array;
use table::table::Table;

// Whether all that is reached is below its row's commit bar.
pub(crate) fn is_below_bars(table: Table, reached: DepSet) -> bool
    ensures { result ≡ all_below_bars table reached.cols }
{
    (0..7).all(|row| usize::from(reached.cols[row]) <= table.bars[row])
}

// Which of the reached slots have not run.
pub(crate) fn waiting(table: Table, reached: DepSet) -> [bool; 224]
    ensures { result ≡ waiting_in table reached.cols }
{
    array::from_fn(|i| is_waiting(&table, reached, i))
}

// Whether slot i is reached and has not run.
fn is_waiting(table: &Table, reached: DepSet, i: usize) -> bool
    requires { i < 224 }
    ensures { result ≡ is_waiting table.now reached.cols i }
{
    i % 32 < usize::from(reached.cols[i / 32]) && !table.slots[i].has_run()
}

// The marked slots become Executed.
pub(crate) fn run(table: Table, marks: [bool; 224]) -> Table
    ensures { result ≡ ran_with table marks }
{
    let mut out = table;
    for (i, &marked) in marks.iter().enumerate() {
        if marked {
            out.slots[i] = out.slots[i].run();
        }
    }
    out
}
