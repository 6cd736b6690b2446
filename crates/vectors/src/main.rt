// Replays a list of cases, each with the right answer, against the C functions of crate host, the key columns of crate keys,
// the handlers of crate handlers, the attempts of crate attempts and the log events of crate logged, and prints how many there
// are and which of them differ. The first argument names the list.
#![tactic(auto)]

mod list; // list.rt: what is left of the list, and the numbers in it
mod kind; // kind.rt: the kinds of cases
mod parts; // parts.rt: what cases are made of, out of numbers: configurations, marks, sets, batches
mod outcome; // outcome.rt: how a case went: what the function answers beside what the list has
mod union; // union.rt: cases of the union
mod fast; // fast.rt: cases of the fast decision
mod choice; // choice.rt: cases of both recovery choices
mod identify; // identify.rt: cases of the key columns
mod contents; // contents.rt: what slots and records have alike
mod events; // events.rt: events of a run
mod records; // records.rt: what an event puts out, beside the list
mod ran; // ran.rt: the slots that an event runs, beside the list
mod tables; // tables.rt: the table after a run, beside the list
mod run; // run.rt: cases of handlers, log events and attempts, many events on one table
mod tally; // tally.rt: the counts, and the lines on what differs
mod replay; // replay.rt: the cases of a list, one after the other

use playing::PATH_ROOM;
use std::io;
use std::rt::Env;

// The room for a list. One that fills it is too long, since more of it may be left.
const ROOM: usize = 1048576;

fn main(rt: HostRuntime) -> io::Result<()> {
    let mut name = [0u8; PATH_ROOM];
    let Ok(length) = rt.arg(1, &mut name) else {
        return eprintln!(rt; "list: the name is missing or too long");
    };
    let Some((_, mut file)) = playing::open(&rt, "list", &name[..length])? else {
        return Ok(());
    };
    let mut room = [0u8; ROOM];
    let count = playing::read(&mut file, &mut room)?;
    if count == ROOM {
        return println!(rt; "the list is too long");
    }
    replay::replay(&rt, &room[..count])
}
