// The events of a trace.
ghost use Rattle.std.specs.Prelude.{◌≡◌};
ghost use Rattle.steps.specs.Calls.{tag_of};

use base::log_status::LogStatus;
use base::refusals::Refusal;
use outcomes::message::{Message, Proposal};
use table::place::Place;

#[derive(Clone, Copy, PartialEq, Eq)]
pub enum Tag {
    PreAccept,
    Accept,
    CommitNotice,
    AcceptReply,
    ExpPrepare,
    Logged,
    Attempt,
    Lead,
}

// An event, with what it asks for.
#[derive(Clone, Copy)]
pub enum Event {
    PreAccept(Proposal),
    Accept(Proposal),
    CommitNotice(Proposal),
    AcceptReply(Message),
    ExpPrepare(Message),
    Logged { at: Place, status: LogStatus },
    Attempt(Place),
    Lead(Place),
}

impl TryFrom<u64> for Tag {
    ghost use Rattle.std.specs.Prelude.{◌≡◌};
    ghost use Rattle.steps.specs.Calls.{tag_in};

    type Error = Refusal;

    ghost try_from_gives = { λ number outcome. outcome ≡ tag_in number };

    // The one that a number from 1 to 8 stands for.
    #[tactic(auto, unfolding(crate::specs::Calls::tag_of))]
    fn try_from(number: u64) -> Result<Tag, Refusal> {
        match number {
            1 => Ok(Tag::PreAccept),
            2 => Ok(Tag::Accept),
            3 => Ok(Tag::CommitNotice),
            4 => Ok(Tag::AcceptReply),
            5 => Ok(Tag::ExpPrepare),
            6 => Ok(Tag::Logged),
            7 => Ok(Tag::Attempt),
            8 => Ok(Tag::Lead),
            _ => Err(Refusal::Unreadable),
        }
    }
}

impl Tag {
    // The one that a number stands for; of a number that stands for none it is Lead. Public, and it cannot fail.
    #[tactic(auto, unfolding(crate::specs::Calls::tag_of))]
    pub fn of(number: u64) -> Tag
        ensures { result ≡ tag_of number }
    {
        Tag::try_from(number).unwrap_or(Tag::Lead)
    }
}
