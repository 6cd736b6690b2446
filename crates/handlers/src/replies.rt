// AcceptReply.
ghost use Rattle.std.specs.Prelude.{◌≡◌, ◌<◌};
ghost use Rattle.outcomes.specs.Outcome.{outcome_of};
ghost use Rattle.changes.specs.Change.{MakesForAny, Seven};
ghost use Rattle.handlers.specs.Replies.{accept_reply, heeds, marking};

use base::answer::Answer;
use base::config::Config;
use base::marks;
use base::status::Status;
use changes::change::{Change, Extent};
use changes::view::{View, look_plain};
use outcomes::message::Message;
use outcomes::outcome::Outcome;
use outcomes::output::{Output, Record, What};
use outcomes::refusal;
use slots::slot::Slot;
use table::place::Place;
use table::table::Table;

// By value a handler is its decision on what it looks at, applied. Three times these two calls, and no function that takes the
// decision: a closure and the contract of its call would be longer than they are.
#[tactic(auto, using(changes::proofs::ViewLaws::seven_seen))]
pub fn accept_reply(table: Table, message: Message) -> Outcome
    ensures { result ≡ outcome_of table (accept_reply table message) }
{
    let at = message.at;
    reply(look_plain(&table, at), message).apply(table, at)
}

// The decision, whatever the batch that the view was made for.
pub fn reply(view: View, message: Message) -> Change
    requires { Seven view }
    ensures { MakesForAny (λ t. accept_reply t message) view message.at result }
{
    if let Err(refusal) = refusal::of_message(view.within, view.config.n, message) {
        return Change::refused(refusal.number());
    }
    if !view.held || !heeds(view.slot, message) {
        return Change::ignored(Extent::Nothing);
    }
    marked(view.config, message.at, view.slot.mark(message.peer))
}

// Accepting, of the message's ballot, led, and the peer not marked yet.
#[tactic(auto, unfolding(crate::specs::Replies::heeds))]
fn heeds(slot: Slot, message: Message) -> bool
    requires { message.peer < 7 }
    ensures { result ≡ heeds slot message }
{
    slot.status == Status::Accepting
        && slot.ballot == message.ballot
        && slot.led
        && !slot.marks[message.peer]
}

// The slot with its new mark; committed where that makes a simple quorum.
fn marked(config: Config, at: Place, slot: Slot) -> Change
    ensures { result ≡ marking config.simple at slot }
{
    let done = Change {
        slot,
        output: Output::NONE,
        answer: Answer::Done,
        extent: Extent::Slot,
    };
    if marks::count(slot.marks) < config.simple {
        return done;
    }
    let committed = slot.commit();
    let log = Record::of(What::Log, at, committed);
    let notice = Record::of(What::CommitNotice, at, committed);
    Change {
        slot: committed,
        output: Output::two(log, notice),
        ..done
    }
}
