// What a call does.
ghost use Rattle.std.specs.Prelude.{◌≡◌};
ghost use Rattle.outcomes.specs.Outcome.{outcome_of, done_with, refused};

use super::output::Output;
use base::answer::Answer;
use table::table::Table;

// No Result: the table stands beside a refusal too (`outcome_of`).
#[derive(Clone, Copy)]
pub struct Outcome {
    pub answer: Answer,
    pub table: Table,
    pub output: Output,
}

impl Outcome {
    // The table as it was before the call. By number and not by `Refusal`: it takes every number, and a type would ask more.
    pub fn refused(table: Table, number: u64) -> Outcome
        ensures { result ≡ outcome_of table (refused number) }
    {
        Outcome {
            answer: Answer::Refused { number },
            table,
            output: Output::NONE,
        }
    }

    pub fn done(table: Table, output: Output) -> Outcome
        ensures { result ≡ done_with table output }
    {
        Outcome {
            answer: Answer::Done,
            table,
            output,
        }
    }
}
