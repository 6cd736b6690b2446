// The first refusal of an attempt, in the order of their numbers.
ghost use Rattle.std.specs.Prelude.{◌≡◌};
ghost use Rattle.base.specs.Refusals.{refused_number};
ghost use Rattle.attempts.specs.Refusal.{attempt_refusal};

use base::refusals::Refusal;
use bounds::bounds::refusal;
use table::place::Place;
use table::table::Table;

// entries: how many the order list has.
#[tactic(auto, unfolding(crate::specs::Refusal::attempt_refusal, base::specs::Refusals::first_refusal, bounds::specs::Bounds::place_refusal))]
pub(crate) fn of_attempt(table: Table, at: Place, entries: usize) -> Result<(), Refusal>
    ensures { refused_number result ≡ attempt_refusal table at entries }
{
    if entries < 224 {
        return Err(Refusal::ShortOrder);
    }
    refusal(table, at)
}
