// What a call answers, in words.
ghost use Rattle.lines.specs.Text.{HasRoom, Wrote};
ghost use Rattle.lines.specs.Words.{answer_text};

use super::text::Text;
use base::answer::Answer;

impl Text<'_> {
    pub(crate) fn put_answer(&mut self, answer: Answer)
        requires { HasRoom self.old (answer_text answer) }
        ensures { Wrote self.old self.new (answer_text answer) }
    {
        match answer {
            Answer::Done => self.put_word(b"done"),
            Answer::Ignored => self.put_word(b"ignored"),
            Answer::NotYet => self.put_word(b"notyet"),
            Answer::Already => self.put_word(b"already"),
            Answer::Refused { number } => {
                self.put_word(b"refused ");
                self.put_number(number);
            }
        }
    }
}
