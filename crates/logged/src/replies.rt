// What goes out once a slot is logged PreAccepting or Accepting.
ghost use Rattle.std.specs.Prelude.{◌≡◌, [], ◌∷◌, true};
ghost use Rattle.outcomes.specs.Output.{record_of};
ghost use Rattle.changes.specs.Change.{Seven};
ghost use Rattle.logged.specs.Replies.{to_source, reply_to, leaving, putting_out};
ghost use Rattle.logged.specs.Logged.{RepliesWith};
ghost use Rattle.logged.specs.declared.replies.Reply.TheVariants.{Accept};

use base::answer::Answer;
use changes::change::{Change, Extent};
use changes::view::View;
use handlers::replies::reply;
use outcomes::message::Message;
use outcomes::output::{Output, Record, What};
use slots::slot::Slot;
use table::place::Place;

// Which reply goes out: of a slot logged PreAccepting, or of one logged Accepting.
#[derive(Clone, Copy, Debug, PartialEq, Eq)]
pub enum Reply {
    PreAccept,
    Accept,
}

impl Reply {
    fn to(self, peer: usize) -> What
        ensures { result ≡ reply_to self peer }
    {
        match self {
            Reply::PreAccept => What::PreAcceptReply { to: peer },
            Reply::Accept => What::AcceptReply { to: peer },
        }
    }
}

// The decision, for a slot that the table holds. Led, a note to self or, logged Accepting, as an AcceptReply from myself;
// else a reply to the source; else nothing.
pub fn replied(reply: Reply, view: View, at: Place) -> Change
    requires seven { Seven view }
    requires held_value { view.held ≡ true }
    ensures { RepliesWith reply view at result }
{
    if !view.slot.led {
        return to_source(reply, at, view.slot);
    }
    match reply {
        Reply::PreAccept => put_out(What::NoteToSelf, at, view.slot),
        Reply::Accept => own_reply(view, at),
    }
}

// A reply to the source, if the slot has one.
fn to_source(reply: Reply, at: Place, slot: Slot) -> Change
    ensures { result ≡ putting_out (to_source slot.source (reply_to reply) at slot) }
{
    match slot.source.checked_sub(1) {
        None => unchanged(Output::NONE),
        Some(peer) => put_out(reply.to(usize::from(peer)), at, slot),
    }
}

// An AcceptReply from myself at the slot's ballot, done whatever it is answered.
fn own_reply(view: View, at: Place) -> Change
    requires seven { Seven view }
    requires held_value { view.held ≡ true }
    requires led_value { view.slot.led ≡ true }
    ensures { RepliesWith Accept view at result }
{
    let message = Message {
        peer: view.config.own,
        at,
        ballot: view.slot.ballot,
    };
    Change {
        answer: Answer::Done,
        ..reply(view, message)
    }
}

// One record of the slot.
fn put_out(what: What, at: Place, slot: Slot) -> Change
    ensures { result ≡ putting_out (record_of what at slot ∷ []) }
{
    unchanged(Output::one(Record::of(what, at, slot)))
}

// The table as it was.
fn unchanged(output: Output) -> Change
    ensures { result ≡ leaving output }
{
    Change {
        slot: Slot::NULL,
        output,
        answer: Answer::Done,
        extent: Extent::Nothing,
    }
}
