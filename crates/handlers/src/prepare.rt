// ExpPrepare.
ghost use Rattle.std.specs.Prelude.{◌≡◌};
ghost use Rattle.outcomes.specs.Outcome.{outcome_of};
ghost use Rattle.changes.specs.Change.{MakesForAny, Seven};
ghost use Rattle.handlers.specs.Prepare.{exp_prepare};

use base::answer::Answer;
use changes::change::{Change, Extent};
use changes::view::{View, look_plain};
use outcomes::message::Message;
use outcomes::outcome::Outcome;
use outcomes::output::{Output, Record, What};
use outcomes::refusal;
use table::table::Table;

#[tactic(auto, using(changes::proofs::ViewLaws::seven_seen))]
pub fn exp_prepare(table: Table, message: Message) -> Outcome
    ensures { result ≡ outcome_of table (exp_prepare table message) }
{
    let at = message.at;
    answered(look_plain(&table, at), message).apply(table, at)
}

// The decision, whatever the batch that the view was made for.
pub fn answered(view: View, message: Message) -> Change
    requires { Seven view }
    ensures { MakesForAny (λ t. exp_prepare t message) view message.at result }
{
    if let Err(refusal) = refusal::of_message(view.within, view.config.n, message) {
        return Change::refused(refusal.number());
    }
    let slot = view.slot;
    if message.ballot <= slot.ballot {
        return Change::ignored(Extent::Nulls);
    }
    let what = What::ExpPrepareReply {
        to: message.peer,
        asked: message.ballot,
    };
    Change {
        slot: slot.hear(message.peer),
        output: Output::one(Record::of(what, message.at, slot)),
        answer: Answer::Done,
        extent: Extent::Slot,
    }
}
