// The line of an event.
ghost use Rattle.std.specs.Prelude.{◌≡◌, ◌+◌, ◌≤◌, length};
ghost use Rattle.std.proofs.lemmas.List.Edits.{sets};
ghost use Rattle.lines.specs.Line.{slots_text, line_text};
ghost use Rattle.lines.specs.Text.{HasRoom, Wrote};

use super::text::Text;
use base::answer::Answer;

// An event's number, its answer, and the slots run. Written from a place on; the place after it.
pub fn put_line(text: &mut [u8], at: usize, number: u64, answer: Answer, ran: &[u8]) -> usize
    requires { at + length (line_text number answer ran.now) ≤ length text.old }
    ensures value { result ≡ at + length (line_text number answer ran.now) }
    ensures text_after { text.new ≡ sets text.old at (line_text number answer ran.now) }
{
    let mut line = Text { bytes: text, at };
    line.put_number(number);
    line.put_byte(b' ');
    line.put_answer(answer);
    line.put_slots(ran);
    line.put_byte(b'\n');
    line.at
}

impl Text<'_> {
    // An entry is 32 * row + column.
    fn put_slots(&mut self, ran: &[u8])
        requires { HasRoom self.old (slots_text ran.now) }
        ensures { Wrote self.old self.new (slots_text ran.now) }
    {
        for entry in ran {
            self.put_pair(u64::from(entry / 32), b'.', u64::from(entry % 32));
        }
    }
}
