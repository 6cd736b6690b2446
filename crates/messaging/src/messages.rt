// Numbers and contents as messages, and the handlers called with them.
ghost use Rattle.std.specs.Prelude.{◌≡◌, ◌≤◌, length};
ghost use Rattle.calls.specs.Calls.{handled_by};
ghost use Rattle.messaging.specs.Messages.{message_of, proposal_of, alone, proposal_call, plain_call};

use base::numbers::size;
use calls::calls::{Handler, SHORT, call};
use deps::batches::Batch;
use deps::sets::DepSet;
use layout::batches::batch_at;
use layout::numbers::word;
use octets::sets::set_at;
use outcomes::message::{Message, Proposal};
use slot_bytes::contents::kinds_known;
use table::place::Place;

// The numbers of a message, as the host passes them.
pub fn message(peer: u64, row: u64, col: u64, ballot: u64) -> Message
    ensures { result ≡ message_of peer row col ballot }
{
    Message {
        peer: size(peer),
        at: Place {
            row: size(row),
            col: size(col),
        },
        ballot,
    }
}

// With no contents: who takes it looks at the message alone.
fn plain(message: Message) -> Proposal
    ensures { result ≡ alone message }
{
    Proposal {
        message,
        seq: 0,
        deps: DepSet::EMPTY,
        batch: Batch::NO_OP,
    }
}

fn proposal_at(message: Message, contents: &[u8]) -> Proposal
    requires { 124 ≤ length contents.now }
    ensures { result ≡ proposal_of message contents.now }
{
    Proposal {
        message,
        seq: word(contents, 0),
        deps: set_at(contents, 8),
        batch: batch_at(contents, 15),
    }
}

// A handler of proposals.
pub fn propose(
    handler: Handler,
    message: Message,
    contents: &[u8],
    image: &mut [u8],
    out: &mut [u8],
) -> u64
    ensures result { result ≡ (proposal_call (λ t p. handled_by handler p t) message contents.now image.old out.old).code }
    ensures table { image.new ≡ (proposal_call (λ t p. handled_by handler p t) message contents.now image.old out.old).image }
    ensures bytes { out.new ≡ (proposal_call (λ t p. handled_by handler p t) message contents.now image.old out.old).out }
{
    if contents.len() < 124 {
        return SHORT;
    }
    let known = kinds_known(contents, 0);
    call(handler, known, proposal_at(message, contents), image, out)
}

// A handler of what is no more than a message, or a place.
pub fn ask(handler: Handler, message: Message, image: &mut [u8], out: &mut [u8]) -> u64
    ensures result { result ≡ (plain_call (handled_by handler (alone message)) image.old out.old).code }
    ensures table { image.new ≡ (plain_call (handled_by handler (alone message)) image.old out.old).image }
    ensures bytes { out.new ≡ (plain_call (handled_by handler (alone message)) image.old out.old).out }
{
    call(handler, true, plain(message), image, out)
}
