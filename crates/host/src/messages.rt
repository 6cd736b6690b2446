// The handlers on a table's image. docs/IMAGE.md has the layouts and the numbers that are answered.
//
// image: 33,618 bytes, a table. contents: 124 bytes: sequence, dependency set, batch. out: 291 bytes, what is put out.
// contents and out may be longer: what is past these bytes is neither read nor written.
// Answers 0 where contents or out is short or the image has another length; 1 where a byte stands for nothing; a refusal's
// number; 100 done, 101 ignored. With 100 and 101 image and out are written, and else stay as they were.
ghost use Rattle.std.specs.Prelude.{◌≡◌};
ghost use Rattle.table.specs.Place.{place_of};
ghost use Rattle.proposing.specs.Proposals.{pre_accept, accept, commit_notice};
ghost use Rattle.handlers.specs.Replies.{accept_reply};
ghost use Rattle.handlers.specs.Prepare.{exp_prepare};
ghost use Rattle.handlers.specs.Lead.{lead_slot};
ghost use Rattle.messaging.specs.Messages.{open_code, open_image, message_of, proposal_call, plain_call};

use calls::calls::Handler;
use messaging::messages::{ask, message, propose};
use messaging::opening::open_on;

// An empty table of this population, own number, simple and super quorum. Answers 100, and the image is written; 0 where it
// has another length, 1 where the configuration is outside the bounds, and it stays as it was.
#[inline(never)]
pub fn nj_open(n: u64, own: u64, simple: u64, sup: u64, image: &mut [u8]) -> u64
    ensures result { result ≡ open_code n own simple sup image.old }
    ensures table { image.new ≡ open_image n own simple sup image.old }
{
    open_on(n, own, simple, sup, image)
}

// A function for each name that C links: this one and the next two differ in the handler alone, and so do the two after them.
#[inline(never)]
pub fn nj_pre_accept(
    image: &mut [u8],
    peer: u64,
    row: u64,
    col: u64,
    ballot: u64,
    contents: &[u8],
    out: &mut [u8],
) -> u64
    ensures result { result ≡ (proposal_call pre_accept (message_of peer row col ballot) contents.now image.old out.old).code }
    ensures table { image.new ≡ (proposal_call pre_accept (message_of peer row col ballot) contents.now image.old out.old).image }
    ensures bytes { out.new ≡ (proposal_call pre_accept (message_of peer row col ballot) contents.now image.old out.old).out }
{
    let m = message(peer, row, col, ballot);
    propose(Handler::PreAccept, m, contents, image, out)
}

#[inline(never)]
pub fn nj_accept(
    image: &mut [u8],
    peer: u64,
    row: u64,
    col: u64,
    ballot: u64,
    contents: &[u8],
    out: &mut [u8],
) -> u64
    ensures result { result ≡ (proposal_call accept (message_of peer row col ballot) contents.now image.old out.old).code }
    ensures table { image.new ≡ (proposal_call accept (message_of peer row col ballot) contents.now image.old out.old).image }
    ensures bytes { out.new ≡ (proposal_call accept (message_of peer row col ballot) contents.now image.old out.old).out }
{
    let m = message(peer, row, col, ballot);
    propose(Handler::Accept, m, contents, image, out)
}

#[inline(never)]
pub fn nj_commit_notice(
    image: &mut [u8],
    peer: u64,
    row: u64,
    col: u64,
    ballot: u64,
    contents: &[u8],
    out: &mut [u8],
) -> u64
    ensures result { result ≡ (proposal_call commit_notice (message_of peer row col ballot) contents.now image.old out.old).code }
    ensures table { image.new ≡ (proposal_call commit_notice (message_of peer row col ballot) contents.now image.old out.old).image }
    ensures bytes { out.new ≡ (proposal_call commit_notice (message_of peer row col ballot) contents.now image.old out.old).out }
{
    let m = message(peer, row, col, ballot);
    propose(Handler::CommitNotice, m, contents, image, out)
}

#[inline(never)]
pub fn nj_accept_reply(
    image: &mut [u8],
    peer: u64,
    row: u64,
    col: u64,
    ballot: u64,
    out: &mut [u8],
) -> u64
    ensures result { result ≡ (plain_call (λ t. accept_reply t (message_of peer row col ballot)) image.old out.old).code }
    ensures table { image.new ≡ (plain_call (λ t. accept_reply t (message_of peer row col ballot)) image.old out.old).image }
    ensures bytes { out.new ≡ (plain_call (λ t. accept_reply t (message_of peer row col ballot)) image.old out.old).out }
{
    let m = message(peer, row, col, ballot);
    ask(Handler::AcceptReply, m, image, out)
}

#[inline(never)]
pub fn nj_exp_prepare(
    image: &mut [u8],
    peer: u64,
    row: u64,
    col: u64,
    ballot: u64,
    out: &mut [u8],
) -> u64
    ensures result { result ≡ (plain_call (λ t. exp_prepare t (message_of peer row col ballot)) image.old out.old).code }
    ensures table { image.new ≡ (plain_call (λ t. exp_prepare t (message_of peer row col ballot)) image.old out.old).image }
    ensures bytes { out.new ≡ (plain_call (λ t. exp_prepare t (message_of peer row col ballot)) image.old out.old).out }
{
    let m = message(peer, row, col, ballot);
    ask(Handler::ExpPrepare, m, image, out)
}

// This copy leads the slot from now on. It puts out nothing.
#[inline(never)]
pub fn nj_lead(image: &mut [u8], row: u64, col: u64, out: &mut [u8]) -> u64
    ensures result { result ≡ (plain_call (λ t. lead_slot t (place_of row col)) image.old out.old).code }
    ensures table { image.new ≡ (plain_call (λ t. lead_slot t (place_of row col)) image.old out.old).image }
    ensures bytes { out.new ≡ (plain_call (λ t. lead_slot t (place_of row col)) image.old out.old).out }
{
    ask(Handler::Lead, message(0, row, col, 0), image, out)
}
