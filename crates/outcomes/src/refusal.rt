// The first refusal, in the order of their numbers. Asked of what is known of a table: whether it is within the bounds, and how
// many rows it has. The two go apart, as docs/ENTRIES.md names it; a view has both among others.
ghost use Rattle.std.specs.Prelude.{◌≡◌, ◌++◌};
ghost use Rattle.base.specs.Refusals.{first_refusal, refused_number};
ghost use Rattle.outcomes.specs.Refusal.{message_tests_in, contents_tests_in, lead_tests_in};

use super::message::{Message, Proposal};
use base::refusals::{Refusal, SEQUENCE_LIMIT};
use bounds::bounds::of_place;
use table::place::Place;

#[tactic(auto, unfolding(base::specs::Refusals::first_refusal))]
pub fn of_message(within: bool, n: usize, message: Message) -> Result<(), Refusal>
    ensures { refused_number result ≡ first_refusal (message_tests_in within n message) }
{
    if !within {
        return Err(Refusal::OutsideBounds);
    }
    if n <= message.peer || n <= message.at.row {
        return Err(Refusal::NoReplica);
    }
    if 32 <= message.at.col {
        return Err(Refusal::NoColumn);
    }
    Ok(())
}

#[tactic(auto, using(crate::proofs::RefusalLaws::number_some), unfolding(base::specs::Refusals::first_refusal))]
pub fn of_proposal(within: bool, n: usize, proposal: Proposal) -> Result<(), Refusal>
    ensures { refused_number result ≡ first_refusal (message_tests_in within n proposal.message ++ contents_tests_in n proposal) }
{
    of_message(within, n, proposal.message)?;
    if !proposal.deps.fits(n) {
        return Err(Refusal::BadDependency);
    }
    if !proposal.batch.fits() {
        return Err(Refusal::BadBatch);
    }
    if SEQUENCE_LIMIT < proposal.seq {
        return Err(Refusal::OverLimit);
    }
    Ok(())
}

// held: whether the table holds the place.
#[tactic(auto, using(crate::proofs::RefusalLaws::number_some), unfolding(base::specs::Refusals::first_refusal))]
pub fn of_led(within: bool, n: usize, held: bool, at: Place) -> Result<(), Refusal>
    ensures { refused_number result ≡ first_refusal (lead_tests_in within n held at) }
{
    of_place(within, n, at)?;
    if !held {
        return Err(Refusal::NoSlot);
    }
    Ok(())
}
