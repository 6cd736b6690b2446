// The number that a C function returns: 0 for a short slice, a refusal's own number, 100 and more for what is done.
ghost use Rattle.std.specs.Prelude.{◌≡◌};
ghost use Rattle.deciding.specs.Codes.{code_of};

use votes::answer::Decision;

pub const DONE: u64 = 100;

#[tactic(auto, unfolding(crate::specs::Codes::code_of))]
pub(crate) fn code(decision: Decision) -> u64
    ensures { result ≡ code_of decision }
{
    match decision {
        Decision::Wait => 104,
        Decision::Committed(_) => 105,
        Decision::Accepting(_) => 106,
        Decision::PreAccepting(_) => 107,
        Decision::Refused { number } => number,
    }
}
