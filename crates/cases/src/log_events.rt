// Cases of log events, on tables of N 3 that begin empty. Each case goes on with the table that the one before it leaves.
use super::{messages, running, text};
use base::log_status::LogStatus;
use handlers::{lead, replies};
use logged::logged::logged;
use proposing::proposals;
use std::io;
use table::place::Place;
use table::table::Table;

// A slot on its way: what goes out, and to whom.
pub(crate) fn answers(rt: &impl Print) -> io::Result<()> {
    let head = messages::from(1, 0, 0, 5);
    let at = head.at;
    let edit = messages::put(head, 1, 5);
    let mut table = messages::empty();
    table = told(rt, "Logged 0.0, absent", table, at, LogStatus::PreAccepting)?;
    table = proposals::pre_accept(table, edit).table;
    table = told(
        rt,
        "PreAccept 0.0 of 1, logged",
        table,
        at,
        LogStatus::PreAccepting,
    )?;
    table = lead::lead(table, at).table;
    table = told(rt, "then led, logged", table, at, LogStatus::PreAccepting)?;
    table = proposals::accept(table, edit).table;
    table = told(
        rt,
        "then Accept 0.0, logged",
        table,
        at,
        LogStatus::Accepting,
    )?;
    table = told(rt, "logged again", table, at, LogStatus::Accepting)?;
    table = replies::accept_reply(table, head).table;
    told(
        rt,
        "then AcceptReply of 1, logged",
        table,
        at,
        LogStatus::Committed,
    )?;
    Ok(())
}

// The bars rise, and what waited below them runs: the rules' own example, and then two slots of one row.
pub(crate) fn bars(rt: &impl Print) -> io::Result<()> {
    let mut table = messages::empty();
    table = running::committed(table, messages::from(1, 0, 0, 1), 2, [0, 1, 0, 0, 0, 0, 0]);
    table = committed(rt, "0.0 committed, logged", table, 0, 0)?;
    table = running::committed(table, messages::from(1, 1, 0, 1), 1, [1, 0, 0, 0, 0, 0, 0]);
    table = committed(rt, "1.0 committed, logged", table, 1, 0)?;
    table = committed(rt, "logged again", table, 1, 0)?;
    table = running::committed(table, messages::from(1, 0, 1, 1), 3, [0; 7]);
    table = running::committed(table, messages::from(1, 0, 2, 1), 3, [0; 7]);
    table = committed(rt, "0.1 and 0.2 committed, 0.2 logged", table, 0, 2)?;
    committed(rt, "then 0.1 logged", table, 0, 1)?;
    Ok(())
}

fn committed(
    rt: &impl Print,
    what: &str,
    table: Table,
    row: usize,
    col: usize,
) -> io::Result<Table> {
    told(rt, what, table, Place { row, col }, LogStatus::Committed)
}

// What the log event is answered, the slots run, what goes out, and the first three bars; the table after it.
fn told(
    rt: &impl Print,
    what: &str,
    table: Table,
    at: Place,
    status: LogStatus,
) -> io::Result<Table> {
    let mut order = [0u8; 224];
    let done = logged(table, at, status, &mut order);
    let outcome = done.outcome;
    print!(rt; "{what}: {}", outcome.answer)?;
    text::ran(rt, order.get(..done.ran).unwrap_or(&[]))?;
    text::output(rt, outcome.output)?;
    let bars = outcome.table.bars;
    println!(rt; "; bars {} {} {}", bars[0], bars[1], bars[2])?;
    Ok(outcome.table)
}
