// What a call answers.
ghost use Rattle.std.specs.Prelude.{◌≡◌};
ghost use Rattle.base.specs.Answer.{number_of};

use std::fmt;

// A refusal is a number here and no `Refusal`: `number_of`, `outcome_of` and `refusing` speak of every number.
#[derive(Clone, Copy, Debug, PartialEq, Eq)]
pub enum Answer {
    Done,
    Ignored,
    NotYet,
    Already,
    Refused { number: u64 },
}

impl Answer {
    // Its number, as C gets it: a refusal's own, and from 100 on the others.
    pub fn number(self) -> u64
        ensures { result ≡ number_of self }
    {
        match self {
            Answer::Done => 100,
            Answer::Ignored => 101,
            Answer::NotYet => 102,
            Answer::Already => 103,
            Answer::Refused { number } => number,
        }
    }
}

// The words that a trace's text has too.
impl fmt::Display for Answer {
    fn fmt<W: fmt::Write>(&self, f: &mut fmt::Formatter<W>) -> fmt::Result {
        match self {
            Answer::Done => f.write_str("done"),
            Answer::Ignored => f.write_str("ignored"),
            Answer::NotYet => f.write_str("notyet"),
            Answer::Already => f.write_str("already"),
            Answer::Refused { number } => write!(f, "refused {number}"),
        }
    }
}
