// A trace from its header to its end.
ghost use Rattle.std.specs.Prelude.{◌≡◌, true, ◌≤◌, length};
ghost use Rattle.std.proofs.lemmas.List.Edits.{sets};
ghost use Rattle.base.specs.Config.{config_fits};
ghost use Rattle.base.specs.Refusals.{refusal_number};
ghost use Rattle.trace.specs.Trace.{refused, opened_trace, text_of};
ghost use Rattle.trace.specs.Turn.{left_text, Going, Ended};
ghost use Rattle.trace.specs.Run.{text_room, no_table, ran_by, run_of, run_text};

use super::turn::{Run, turn};
use base::answer::Answer;
use base::config::Config;
use base::refusals::Refusal;
use lines::bars::put_bars;
use lines::line::put_line;
use reader::places::rest_from;
use reading::events::header;
use table::table::Table;

// A longer trace is refused.
pub const LIMIT: usize = 65536;

// Room for the text of every trace: 20 bytes for each byte of the longest.
pub const ROOM: usize = 1310720;

// A run that is over.
pub const DONE: u64 = 100;

// The list for the text is shorter than ROOM.
pub const SHORT: u64 = 0;

// DONE, SHORT or the number of the refusal; the table after the last event, or one that every entry refuses; the end of the
// text. A number, and no Result: `run_of` gives a table and an end beside a refusal too, and says by what
// number. The text is lent, since there is no heap: its end stands beside it.
#[derive(Clone, Copy)]
pub struct Ran {
    pub number: u64,
    pub table: Table,
    pub end: usize,
}

// Runs a trace and writes, from the first byte of the lent list on, a line for each event and then the bars.
pub fn run(trace: &[u8], text: &mut [u8]) -> Ran
    ensures result { result ≡ run_of trace.now (length text.old) }
    ensures list { text.new ≡ run_text trace.now text.old }
{
    if text.len() < ROOM {
        return Ran {
            number: SHORT,
            table: no_table(),
            end: 0,
        };
    }
    if LIMIT < trace.len() {
        return refuse(Refusal::TooLong, text);
    }
    let head = match header(trace) {
        Ok(head) => head,
        Err(refusal) => return refuse(refusal, text),
    };
    if !head.config.fits() {
        return refuse(Refusal::OutsideBounds, text);
    }
    events(trace, head.config, head.next, text)
}

// The events of a trace whose header is within the bounds, and the bars after them.
fn events(trace: &[u8], config: Config, at: usize, text: &mut [u8]) -> Ran
    requires config_value { config_fits config ≡ true }
    requires trace_len_bound { length trace.now ≤ 65536 }
    requires text_room_in_bounds { text_room ≤ length text.old }
    ensures result { result ≡ ran_by (opened_trace trace.now config at) }
    ensures list { text.new ≡ sets text.old 0 (text_of (opened_trace trace.now config at)) }
{
    let begun = Run {
        table: Table::empty(config),
        at,
        rest: rest_from(trace, at),
        events: 0,
        end: 0,
    };
    let ended = turns(trace, begun, text);
    let end = put_bars(text, ended.end, ended.table);
    Ran {
        number: DONE,
        table: ended.table,
        end,
    }
}

// One event after the other, to the end of the trace.
fn turns(trace: &[u8], begun: Run, text: &mut [u8]) -> Run
    requires trace_len_bound { length trace.now ≤ 65536 }
    requires going { Going trace.now (length text.old) begun }
    ensures ended { Ended trace.now begun (length text.old) result }
    ensures list { text.new ≡ sets text.old begun.end (left_text trace.now begun) }
{
    let mut run = begun;
    // a while, since it counts no index: a turn says how much is left
    while 0 < run.rest {
        run = turn(trace, run, text);
    }
    run
}

// A trace that is refused as a whole, as event 0.
fn refuse(refusal: Refusal, text: &mut [u8]) -> Ran
    requires { text_room ≤ length text.old }
    ensures result { result ≡ ran_by (refused (refusal_number refusal)) }
    ensures list { text.new ≡ sets text.old 0 (text_of (refused (refusal_number refusal))) }
{
    let number = refusal.number();
    let end = put_line(text, 0, 0, Answer::Refused { number }, &[]);
    Ran {
        number,
        table: no_table(),
        end,
    }
}

// Outside the bounds.
fn no_table() -> Table
    ensures { result ≡ no_table }
{
    Table::empty(Config {
        n: 0,
        own: 0,
        simple: 0,
        sup: 0,
    })
}
