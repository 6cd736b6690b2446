// The header, and an event.
ghost use Rattle.std.specs.Prelude.{◌≡◌, ◌≤◌};
ghost use Rattle.groups.specs.Told.{standing, Tells, Took};
ghost use Rattle.reading.specs.Held.{held, held_proposal};
ghost use Rattle.reading.specs.Events.{header_of, headed, proposal_from, event_from, event_of};

use super::batches::batch;
use super::fields::{message, place, set};
use base::config::Config;
use base::log_status::LogStatus;
use base::numbers::size;
use base::refusals::Refusal;
use groups::cursor::Cursor;
use outcomes::message::Proposal;
use steps::event::{Event, Tag};

// A configuration, and the place of the first event.
#[derive(Clone, Copy)]
pub struct Head {
    pub config: Config,
    pub next: usize,
}

// N, own number, simple, super.
#[tactic(auto, using(groups::proofs::ToldLaws::handed_on), unfolding(crate::specs::Events::header_of))]
pub fn header(trace: &[u8]) -> Result<Head, Refusal>
    ensures { let x = header_of trace.now in Tells result (headed x) x.cursor.refusal }
{
    let mut cursor = Cursor::on(trace, 0);
    let [n, own, simple, sup] = cursor.numbers::<4>()?;
    let config = Config {
        n: size(n),
        own: size(own),
        simple: size(simple),
        sup: size(sup),
    };
    let next = cursor.place?;
    Ok(Head { config, next })
}

// An event: a tag, and what it asks for. n is the population.
#[tactic(auto, using(groups::proofs::ToldLaws::hands_on, crate::proofs::KeepLaws::stopped, groups::proofs::ReadLaws::within_stays_stopped), unfolding(crate::specs::Events::event_from))]
pub fn event(cursor: &mut Cursor, n: usize) -> Result<Event, Refusal>
    requires { n ≤ 7 }
    ensures { let x = event_from n cursor.old.trace.now (standing cursor.old.place) in Took cursor.old result cursor.new (event_of (held x.call)) x.cursor }
{
    let number = cursor.number_within(1, 8)?;
    // Tag::of and LogStatus::of, which cannot fail: each range has been tested, and what is outside it is refused by the cursor
    match Tag::of(number) {
        Tag::PreAccept => Ok(Event::PreAccept(proposal(cursor, n)?)),
        Tag::Accept => Ok(Event::Accept(proposal(cursor, n)?)),
        Tag::CommitNotice => Ok(Event::CommitNotice(proposal(cursor, n)?)),
        Tag::AcceptReply => Ok(Event::AcceptReply(message(cursor)?)),
        Tag::ExpPrepare => Ok(Event::ExpPrepare(message(cursor)?)),
        Tag::Logged => {
            let at = place(cursor)?;
            let status = cursor.number_within(1, 3)?;
            Ok(Event::Logged {
                at,
                status: LogStatus::of(status),
            })
        }
        Tag::Attempt => Ok(Event::Attempt(place(cursor)?)),
        Tag::Lead => Ok(Event::Lead(place(cursor)?)),
    }
}

// Message, sequence, n dependencies, batch.
#[tactic(auto, using(groups::proofs::ToldLaws::hands_on, crate::proofs::KeepLaws::stopped), unfolding(crate::specs::Events::proposal_from))]
fn proposal(cursor: &mut Cursor, n: usize) -> Result<Proposal, Refusal>
    requires { n ≤ 7 }
    ensures { let x = proposal_from n cursor.old.trace.now (standing cursor.old.place) in Took cursor.old result cursor.new (held_proposal x.proposal) x.cursor }
{
    let message = message(cursor)?;
    let seq = cursor.number()?;
    let deps = set(cursor, n)?;
    let batch = batch(cursor)?;
    Ok(Proposal {
        message,
        seq,
        deps,
        batch,
    })
}
