// Cases of the attempt, on a table of N 3 that begins empty. The bars are raised by hand, as far as slots are committed.
use super::{messages, sets, text};
use attempts::attempt::attempt;
use deps::batches::Batch;
use deps::sets::DepSet;
use outcomes::message::{Message, Proposal};
use proposing::proposals;
use std::io;
use table::place::Place;
use table::table::Table;

pub(crate) fn attempts(rt: &impl Print) -> io::Result<()> {
    let mut table = messages::empty();
    table = tried(rt, "Attempt 1.2, absent", table, 1, 2)?;
    // the rules' own example: two slots that name each other
    table = committed(table, messages::from(1, 0, 0, 1), 2, [0, 1, 0, 0, 0, 0, 0]);
    table = committed(table, messages::from(1, 1, 0, 1), 1, [1, 0, 0, 0, 0, 0, 0]);
    table = tried(rt, "0.0 and 1.0 committed, Attempt 1.0", table, 1, 0)?;
    table.bars[0] = 1;
    table = tried(rt, "bar of row 0 at 1, Attempt 0.0", table, 0, 0)?;
    table.bars[1] = 1;
    table = tried(rt, "bar of row 1 at 1, Attempt 1.0", table, 1, 0)?;
    table = tried(rt, "again", table, 1, 0)?;
    table = tried(rt, "then Attempt 0.0", table, 0, 0)?;
    table = tried(rt, "then Attempt 3.0", table, 3, 0)?;
    table = tried(rt, "then Attempt 0.32", table, 0, 32)?;
    short(rt, table)
}

// A slot that puts key 5, with a dependency set of these numbers.
pub(crate) fn committed(table: Table, message: Message, seq: u64, cols: [u8; 7]) -> Table {
    let notice = Proposal {
        message,
        seq,
        deps: DepSet { cols },
        batch: Batch::of(sets::put(5)),
    };
    proposals::commit_notice(table, notice).table
}

// What the attempt answers, and the slots run; the table after it.
fn tried(rt: &impl Print, what: &str, table: Table, row: usize, col: usize) -> io::Result<Table> {
    let mut order = [0u8; 224];
    let tried = attempt(table, Place { row, col }, &mut order);
    print!(rt; "{what}: {}", tried.answer)?;
    text::ran(rt, order.get(..tried.ran).unwrap_or(&[]))?;
    println!(rt; "")?;
    Ok(tried.table)
}

// With a list of 223 entries.
fn short(rt: &impl Print, table: Table) -> io::Result<()> {
    let mut order = [0u8; 223];
    let tried = attempt(table, Place { row: 3, col: 32 }, &mut order);
    println!(rt; "then Attempt 3.32 with a list of 223: {}", tried.answer)
}
