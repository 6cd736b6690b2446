// Lead: this copy leads the slot.
ghost use Rattle.std.specs.Prelude.{◌≡◌};
ghost use Rattle.outcomes.specs.Outcome.{outcome_of};
ghost use Rattle.changes.specs.Change.{MakesForAny, Seven};
ghost use Rattle.handlers.specs.Lead.{lead_slot};

use base::answer::Answer;
use changes::change::{Change, Extent};
use changes::view::{View, look_plain};
use outcomes::outcome::Outcome;
use outcomes::output::Output;
use outcomes::refusal;
use table::place::Place;
use table::table::Table;

#[tactic(auto, using(changes::proofs::ViewLaws::seven_seen))]
pub fn lead(table: Table, at: Place) -> Outcome
    ensures { result ≡ outcome_of table (lead_slot table at) }
{
    led(look_plain(&table, at), at).apply(table, at)
}

// The decision, whatever the batch that the view was made for.
pub fn led(view: View, at: Place) -> Change
    requires { Seven view }
    ensures { MakesForAny (λ t. lead_slot t at) view at result }
{
    if let Err(refusal) = refusal::of_led(view.within, view.config.n, view.held, at) {
        return Change::refused(refusal.number());
    }
    Change {
        slot: view.slot.lead(),
        output: Output::NONE,
        answer: Answer::Done,
        extent: Extent::Slot,
    }
}
