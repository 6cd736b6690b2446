// A trace and a place in it, from which its events are read one after the other.
ghost use Rattle.std.specs.Prelude.{◌≡◌, ◌≤◌};
ghost use Rattle.groups.specs.Told.{cursor_on, standing, Took};
ghost use Rattle.reading.specs.Events.{event_from, event_in};
ghost use Rattle.reader.specs.Reader.{reader_on, place_after, rest_from};

use super::places::rest_from;
use base::refusals::Refusal;
use groups::cursor::Cursor;
use reading::events::event;
use steps::event::Event;

#[derive(Clone, Copy)]
pub struct Reader<'a> {
    pub cursor: Cursor<'a>,
}

impl<'a> Reader<'a> {
    // A reader at a place of the trace.
    pub fn on(trace: &'a [u8], at: usize) -> Reader<'a>
        ensures { result ≡ reader_on trace.entry at }
    {
        Reader {
            cursor: Cursor::on(trace, at),
        }
    }

    // The next event, or the refusal that is met there. After one nothing is read. n is the population.
    pub fn event(&mut self, n: usize) -> Result<Event, Refusal>
        requires { n ≤ 7 }
        ensures { let x = event_in (event_from n self.old.cursor.trace.now (standing self.old.cursor.place)) in Took self.old.cursor result self.new.cursor x.event x.cursor }
    {
        event(&mut self.cursor, n)
    }

    // The place of what comes next. After a refusal nothing does: the trace's end.
    pub fn place(&self) -> usize
        ensures { result ≡ place_after self.now.cursor.trace.now (standing self.now.cursor.place) }
    {
        let cursor = self.cursor;
        cursor.place.unwrap_or(cursor.trace.len())
    }

    // How many bytes come from the place on.
    pub fn rest(&self) -> usize
        ensures { result ≡ rest_from self.now.cursor.trace.now (place_after self.now.cursor.trace.now (standing self.now.cursor.place)) }
    {
        rest_from(self.cursor.trace, self.place())
    }
}
