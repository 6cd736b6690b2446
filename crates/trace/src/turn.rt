// One event of a trace.
ghost use Rattle.std.specs.Prelude.{◌≡◌, true, ◌+◌, ◌≤◌, ◌<◌, length};
ghost use Rattle.std.proofs.lemmas.List.Edits.{sets};
ghost use Rattle.base.specs.Refusals.{refusal_number};
ghost use Rattle.bounds.specs.Bounds.{table_fits};
ghost use Rattle.trace.specs.Turn.{turn_of, turn_text, stopped_run, refusal_text};

use base::answer::Answer;
use base::refusals::Refusal;
use lines::line::put_line;
use reader::next::next_at;
use steps::step::step;
use table::table::Table;

// How far a run has come: its table, the place of the next event, how many bytes there are from there on, how many events there
// were, and the end of their text.
#[derive(Clone, Copy)]
pub struct Run {
    pub table: Table,
    pub at: usize,
    pub rest: usize,
    pub events: usize,
    pub end: usize,
}

// The next event, and its line.
pub(crate) fn turn(trace: &[u8], run: Run, text: &mut [u8]) -> Run
    requires table_value { table_fits run.table ≡ true }
    requires events_bound { run.events < 65536 }
    requires end_in_bounds { run.end + 1170 ≤ length text.old }
    ensures result { result ≡ turn_of trace.now run }
    ensures list { text.new ≡ sets text.old run.end (turn_text trace.now run) }
{
    let next = next_at(trace, run.at, run.table.config.n);
    let event = match next.event {
        Ok(event) => event,
        Err(refusal) => return stop(run, next.at, refusal, text),
    };
    let mut order = [0u8; 224];
    let did = step(run.table, event, &mut order);
    let outcome = did.outcome;
    let events = run.events + 1;
    let ran = &order[..did.ran];
    let end = put_line(text, run.end, events as u64, outcome.answer, ran);
    Run {
        table: outcome.table,
        at: next.at,
        rest: next.rest,
        events,
        end,
    }
}

// The line of an event that cannot be read, and nothing is left. at is the trace's end.
fn stop(run: Run, at: usize, refusal: Refusal, text: &mut [u8]) -> Run
    requires events_bound { run.events < 65536 }
    requires end_in_bounds { run.end + 50 ≤ length text.old }
    ensures result { result ≡ stopped_run at run (refusal_number refusal) }
    ensures list { text.new ≡ sets text.old run.end (refusal_text run (refusal_number refusal)) }
{
    let events = run.events + 1;
    let number = refusal.number();
    let answer = Answer::Refused { number };
    let end = put_line(text, run.end, events as u64, answer, &[]);
    Run {
        at,
        rest: 0,
        events,
        end,
        ..run
    }
}
