// Cases of the handlers, on tables begun empty: N 3, own 0, simple 2, super 3. Requests put key 5 unless said.
use super::{sets, text};
use bounds::open;
use deps::batches::Batch;
use deps::sets::DepSet;
use handlers::{lead, prepare, replies};
use outcomes::message::{Message, Proposal};
use outcomes::outcome::Outcome;
use proposing::proposals;
use std::io;
use table::place::Place;
use table::table::Table;

pub(crate) fn empty() -> Table {
    open::open(3, 0, 2, 3).table
}

pub(crate) fn from(peer: usize, row: usize, col: usize, ballot: u64) -> Message {
    Message {
        peer,
        at: Place { row, col },
        ballot,
    }
}

// A put of the key that names no dependency.
pub(crate) fn put(message: Message, seq: u64, key: u16) -> Proposal {
    Proposal {
        message,
        seq,
        deps: DepSet::EMPTY,
        batch: Batch::of(sets::put(key)),
    }
}

// What a call did to its slot, and the table after it.
fn show(rt: &impl Print, what: &str, at: Place, outcome: Outcome) -> io::Result<Table> {
    print!(rt; "{what}: {}", outcome.answer)?;
    text::slot_at(rt, outcome.table, at)?;
    text::output(rt, outcome.output)?;
    println!(rt; "")?;
    Ok(outcome.table)
}

// Each case goes on with the table that the one before it leaves, so that one table is kept at a time.
pub(crate) fn pre_accepts(rt: &impl Print) -> io::Result<()> {
    let mut table = empty();
    let head = from(1, 0, 0, 5);
    let at = head.at;
    let sent = put(head, 1, 5);
    table = show(
        rt,
        "PreAccept 0.0, ballot 5, sequence 1",
        at,
        proposals::pre_accept(table, sent),
    )?;
    table = show(rt, "sent again", at, proposals::pre_accept(table, sent))?;
    let late = put(from(1, 0, 0, 4), 1, 5);
    show(rt, "with ballot 4", at, proposals::pre_accept(table, late))?;
    Ok(())
}

pub(crate) fn prepares(rt: &impl Print) -> io::Result<()> {
    let mut table = empty();
    let third = from(2, 1, 2, 0);
    let last = third.at;
    table = show(
        rt,
        "ExpPrepare 1.2, ballot 0",
        last,
        prepare::exp_prepare(table, third),
    )?;
    let second = from(2, 1, 1, 0);
    let middle = second.at;
    table = show(
        rt,
        "then ExpPrepare 1.1, ballot 0",
        middle,
        prepare::exp_prepare(table, second),
    )?;
    let first = from(2, 1, 0, 9);
    let at = first.at;
    table = show(
        rt,
        "then ExpPrepare 1.0, ballot 9",
        at,
        prepare::exp_prepare(table, first),
    )?;
    let low = put(from(1, 1, 0, 1), 1, 5);
    show(
        rt,
        "then Accept 1.0, ballot 1",
        at,
        proposals::accept(table, low),
    )?;
    Ok(())
}

// The last column and key, and the first past them.
pub(crate) fn edges(rt: &impl Print) -> io::Result<()> {
    let mut table = empty();
    let last = from(1, 0, 31, 5);
    let at = last.at;
    table = show(
        rt,
        "PreAccept 0.31, key 255",
        at,
        proposals::pre_accept(table, put(last, 1, 255)),
    )?;
    table = show(
        rt,
        "then key 256",
        at,
        proposals::pre_accept(table, put(last, 1, 256)),
    )?;
    let past = from(1, 0, 32, 5);
    let none = past.at;
    show(
        rt,
        "then PreAccept 0.32",
        none,
        proposals::pre_accept(table, put(past, 1, 5)),
    )?;
    Ok(())
}

// A slot that is led is committed by the second mark.
pub(crate) fn marks(rt: &impl Print) -> io::Result<()> {
    let mut table = empty();
    let head = from(1, 0, 0, 5);
    let at = head.at;
    table = show(rt, "Lead 0.0, absent", at, lead::lead(table, at))?;
    table = show(
        rt,
        "Accept 0.0",
        at,
        proposals::accept(table, put(head, 1, 5)),
    )?;
    table = show(
        rt,
        "AcceptReply of 1, not led",
        at,
        replies::accept_reply(table, head),
    )?;
    table = show(rt, "Lead 0.0", at, lead::lead(table, at))?;
    table = show(
        rt,
        "AcceptReply of 1",
        at,
        replies::accept_reply(table, head),
    )?;
    table = show(
        rt,
        "AcceptReply of 1 again",
        at,
        replies::accept_reply(table, head),
    )?;
    let other = from(2, 0, 0, 5);
    show(
        rt,
        "AcceptReply of 2",
        at,
        replies::accept_reply(table, other),
    )?;
    Ok(())
}

// The sequence given is looked at before the ballot, the one to be stored after it; neither adds a slot.
pub(crate) fn sequences(rt: &impl Print) -> io::Result<()> {
    let mut table = empty();
    let head = from(1, 0, 0, 5);
    let at = head.at;
    let over = put(head, 4294967296, 5);
    table = show(
        rt,
        "CommitNotice 0.0, sequence 2^32",
        at,
        proposals::commit_notice(table, over),
    )?;
    let most = put(head, 4294967295, 5);
    table = show(
        rt,
        "CommitNotice 0.0, sequence 2^32 - 1",
        at,
        proposals::commit_notice(table, most),
    )?;
    let next = from(1, 0, 1, 5);
    let second = next.at;
    let small = put(next, 1, 5);
    table = show(
        rt,
        "then PreAccept 0.1",
        second,
        proposals::pre_accept(table, small),
    )?;
    show(
        rt,
        "then Accept 0.1",
        second,
        proposals::accept(table, small),
    )?;
    Ok(())
}

// A table of a configuration that is refused is refused by every entry.
pub(crate) fn opens(rt: &impl Print) -> io::Result<()> {
    let opened = open::open(3, 3, 2, 3);
    println!(rt; "own 3 of 3: {}", opened.answer)?;
    let head = from(9, 9, 99, 5);
    let outcome = replies::accept_reply(opened.table, head);
    show(rt, "then AcceptReply of 9 for 9.99", head.at, outcome)?;
    Ok(())
}
