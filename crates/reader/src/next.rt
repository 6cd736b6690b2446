// The next event of a trace, for whoever has the trace and a place.
ghost use Rattle.std.specs.Prelude.{◌≡◌, ◌≤◌};
ghost use Rattle.reader.specs.Next.{next_at, NextTold};

use super::reader::Reader;
use base::refusals::Refusal;
use steps::event::Event;

// The event that was read or the refusal that was met, the place of what comes next, and how many bytes there are from there on.
// With a refusal nothing comes next: the place is the trace's end.
#[derive(Clone, Copy)]
pub struct Next {
    pub event: Result<Event, Refusal>,
    pub at: usize,
    pub rest: usize,
}

// The event at a place, or the refusal that is met there. n is the population, at most 7: docs/ENTRIES.md names this for any n
// that is shown to be, of which a type would ask more.
#[tactic(auto, unfolding(crate::specs::Next::next_at))]
pub fn next_at(trace: &[u8], at: usize, n: usize) -> Next
    requires { n ≤ 7 }
    ensures { NextTold result (next_at n trace.now at) }
{
    let mut reader = Reader::on(trace, at);
    let event = reader.event(n);
    let at = reader.place();
    let rest = reader.rest();
    Next { event, at, rest }
}
