// What is decided.
ghost use Rattle.std.specs.Prelude.{◌≡◌};
ghost use Rattle.votes.specs.Answer.{goes_on_with};

use super::contents::Contents;

// What to do, and what to go on with: there is nothing to go on with in a wait or a refusal. A refusal is a number and no
// Refusal: `answered`, by which C is told, takes every number, and a type would ask more of who calls it.
#[derive(Clone, Copy)]
pub enum Decision {
    Wait,
    Committed(Contents),
    Accepting(Contents),
    PreAccepting(Contents),
    Refused { number: u64 },
}

impl Decision {
    // What there is to go on with.
    pub fn contents(self) -> Option<Contents>
        ensures { result ≡ goes_on_with self }
    {
        match self {
            Decision::Committed(contents)
            | Decision::Accepting(contents)
            | Decision::PreAccepting(contents) => Some(contents),
            Decision::Wait | Decision::Refused { .. } => None,
        }
    }
}
