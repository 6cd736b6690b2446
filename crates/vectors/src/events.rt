// Events of a run: a tag, which is a trace's, and what the event holds.
use super::list::List;
use base::log_status::LogStatus;
use base::numbers::size;
use outcomes::message::{Message, Proposal};
use steps::event::{Event, Tag};
use table::place::Place;

impl List<'_> {
    pub(crate) fn event(&mut self, n: u64) -> Option<Event> {
        Some(match Tag::try_from(self.any()?).ok()? {
            Tag::PreAccept => Event::PreAccept(self.proposal(n)?),
            Tag::Accept => Event::Accept(self.proposal(n)?),
            Tag::CommitNotice => Event::CommitNotice(self.proposal(n)?),
            Tag::AcceptReply => Event::AcceptReply(self.message()?),
            Tag::ExpPrepare => Event::ExpPrepare(self.message()?),
            Tag::Logged => Event::Logged {
                at: self.place()?,
                status: LogStatus::try_from(self.any()?).ok()?,
            },
            Tag::Attempt => Event::Attempt(self.place()?),
            Tag::Lead => Event::Lead(self.place()?),
        })
    }

    // Peer, row, column, ballot, sequence, set, batch.
    fn proposal(&mut self, n: u64) -> Option<Proposal> {
        Some(Proposal {
            message: self.message()?,
            seq: self.any()?,
            deps: self.set(n)?,
            batch: self.batch()?,
        })
    }

    // Peer, row, column, ballot.
    fn message(&mut self) -> Option<Message> {
        Some(Message {
            peer: size(self.any()?),
            at: self.place()?,
            ballot: self.any()?,
        })
    }

    pub(crate) fn place(&mut self) -> Option<Place> {
        Some(Place {
            row: size(self.any()?),
            col: size(self.any()?),
        })
    }
}
