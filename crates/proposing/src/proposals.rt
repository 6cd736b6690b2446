// PreAccept, Accept and CommitNotice.
ghost use Rattle.std.specs.Prelude.{◌≡◌, ◌<◌};
ghost use Rattle.outcomes.specs.Outcome.{outcome_of};
ghost use Rattle.changes.specs.Change.{Makes, Seven};
ghost use Rattle.proposing.specs.Proposals.{pre_accept, accept, commit_notice, proposed, values_from, raised_from, status_after, stored_for, values};

use base::answer::Answer;
use base::refusals::Refusal;
use base::status::Status;
use changes::change::{Change, Extent};
use changes::view::{View, look};
use deps::batches::Batch;
use deps::sets::DepSet;
use outcomes::message::{Message, Proposal};
use outcomes::outcome::Outcome;
use outcomes::output::{Output, Record, What};
use outcomes::refusal;
use slots::slot::Slot;
use table::table::Table;

// Which of the three it is: an enum and no closures, since the laws go by its cases (`only_pre_accept_over`).
#[derive(Clone, Copy)]
pub enum Phase {
    PreAccept,
    Accept,
    CommitNotice,
}

impl Phase {
    // Of the slot once it is stored.
    fn status(self) -> Status
        ensures { result ≡ status_after self }
    {
        match self {
            Phase::PreAccept => Status::PreAccepting,
            Phase::Accept => Status::Accepting,
            Phase::CommitNotice => Status::Committed,
        }
    }
}

// What goes into the slot: a sequence that may be over the limit, and dependencies.
#[derive(Clone, Copy)]
pub struct Values {
    pub seq: u64,
    pub deps: DepSet,
}

// The three entries stay beside what they share: README.md and docs/ENTRIES.md name them.
pub fn pre_accept(table: Table, proposal: Proposal) -> Outcome
    ensures { result ≡ outcome_of table (pre_accept table proposal) }
{
    propose(Phase::PreAccept, table, proposal)
}

pub fn accept(table: Table, proposal: Proposal) -> Outcome
    ensures { result ≡ outcome_of table (accept table proposal) }
{
    propose(Phase::Accept, table, proposal)
}

pub fn commit_notice(table: Table, proposal: Proposal) -> Outcome
    ensures { result ≡ outcome_of table (commit_notice table proposal) }
{
    propose(Phase::CommitNotice, table, proposal)
}

// A table by value: looked at, decided, changed.
#[tactic(auto, using(changes::proofs::ViewLaws::seven_seen))]
fn propose(phase: Phase, table: Table, proposal: Proposal) -> Outcome
    ensures { result ≡ outcome_of table (proposed phase table proposal) }
{
    let at = proposal.message.at;
    let view = look(&table, at, proposal.batch);
    take(phase, view, proposal).apply(table, at)
}

// What the three have in common: refusals, the ballot, the slot to be stored, the log record. The view is of the proposal's
// place and batch.
pub fn take(phase: Phase, view: View, proposal: Proposal) -> Change
    requires { Seven view }
    ensures { Makes (λ t. proposed phase t proposal) view proposal.message.at proposal.batch result }
{
    if let Err(refusal) = refusal::of_proposal(view.within, view.config.n, proposal) {
        return Change::refused(refusal.number());
    }
    let message = proposal.message;
    if message.ballot < view.slot.ballot {
        return Change::ignored(Extent::Nulls);
    }
    let values = values_for(phase, view, proposal);
    // the limit of a sequence is the greatest u32
    let Ok(seq) = u32::try_from(values.seq) else {
        return Change::refused(Refusal::OverLimit.number());
    };
    let stored = stored_for(phase, view.slot, message, seq, values.deps, proposal.batch);
    Change {
        slot: stored,
        output: Output::one(Record::of(What::Log, message.at, stored)),
        answer: Answer::Done,
        extent: Extent::Keys,
    }
}

fn values_for(phase: Phase, view: View, proposal: Proposal) -> Values
    ensures { result ≡ values_from phase view.mine view.highest proposal }
{
    let given = Values {
        seq: proposal.seq,
        deps: proposal.deps,
    };
    match phase {
        Phase::PreAccept => raised(given, view.mine, view.highest),
        Phase::Accept | Phase::CommitNotice => given,
    }
}

// The values given, raised by what the table knows: my set, and its highest sequence.
fn raised(given: Values, mine: DepSet, highest: u32) -> Values
    ensures { result ≡ raised_from mine highest given }
{
    Values {
        seq: given.seq.max(1 + u64::from(highest)),
        deps: given.deps.union(mine),
    }
}

// The slot with the message's ballot, the phase's status and these values; a CommitNotice does not touch the source.
fn stored_for(
    phase: Phase,
    slot: Slot,
    message: Message,
    seq: u32,
    deps: DepSet,
    batch: Batch,
) -> Slot
    requires { message.peer < 7 }
    ensures { result ≡ stored_for phase slot message (values seq deps) batch }
{
    let stored = slot.store(message.ballot, phase.status(), seq, deps, batch);
    match phase {
        Phase::PreAccept | Phase::Accept => stored.hear(message.peer),
        Phase::CommitNotice => stored,
    }
}
