// The handlers on a table's image, for C. crates/host/src/messages.rt says what the slices hold and what is answered.
ghost use Rattle.std.specs.Prelude.{◌≡◌};
ghost use Rattle.table.specs.Place.{place_of};
ghost use Rattle.proposing.specs.Proposals.{pre_accept, accept, commit_notice};
ghost use Rattle.handlers.specs.Replies.{accept_reply};
ghost use Rattle.handlers.specs.Prepare.{exp_prepare};
ghost use Rattle.handlers.specs.Lead.{lead_slot};
ghost use Rattle.messaging.specs.Messages.{open_code, open_image, message_of, proposal_call, plain_call};

#[unsafe(no_mangle)]
pub extern "C" fn nj_open(n: u64, own: u64, simple: u64, sup: u64, image: &mut [u8]) -> u64
    ensures result { result ≡ open_code n own simple sup image.old }
    ensures table { image.new ≡ open_image n own simple sup image.old }
{
    host::messages::nj_open(n, own, simple, sup, image)
}

#[unsafe(no_mangle)]
pub extern "C" fn nj_pre_accept(
    image: &mut [u8],
    peer: u64,
    row: u64,
    col: u64,
    ballot: u64,
    contents: &[u8],
    out: &mut [u8],
) -> u64
    ensures result { result ≡ (proposal_call pre_accept (message_of peer row col ballot) contents.now image.old out.old).code }
    ensures table { image.new ≡ (proposal_call pre_accept (message_of peer row col ballot) contents.now image.old out.old).image }
    ensures bytes { out.new ≡ (proposal_call pre_accept (message_of peer row col ballot) contents.now image.old out.old).out }
{
    host::messages::nj_pre_accept(image, peer, row, col, ballot, contents, out)
}

#[unsafe(no_mangle)]
pub extern "C" fn nj_accept(
    image: &mut [u8],
    peer: u64,
    row: u64,
    col: u64,
    ballot: u64,
    contents: &[u8],
    out: &mut [u8],
) -> u64
    ensures result { result ≡ (proposal_call accept (message_of peer row col ballot) contents.now image.old out.old).code }
    ensures table { image.new ≡ (proposal_call accept (message_of peer row col ballot) contents.now image.old out.old).image }
    ensures bytes { out.new ≡ (proposal_call accept (message_of peer row col ballot) contents.now image.old out.old).out }
{
    host::messages::nj_accept(image, peer, row, col, ballot, contents, out)
}

#[unsafe(no_mangle)]
pub extern "C" fn nj_commit_notice(
    image: &mut [u8],
    peer: u64,
    row: u64,
    col: u64,
    ballot: u64,
    contents: &[u8],
    out: &mut [u8],
) -> u64
    ensures result { result ≡ (proposal_call commit_notice (message_of peer row col ballot) contents.now image.old out.old).code }
    ensures table { image.new ≡ (proposal_call commit_notice (message_of peer row col ballot) contents.now image.old out.old).image }
    ensures bytes { out.new ≡ (proposal_call commit_notice (message_of peer row col ballot) contents.now image.old out.old).out }
{
    host::messages::nj_commit_notice(image, peer, row, col, ballot, contents, out)
}

#[unsafe(no_mangle)]
pub extern "C" fn nj_accept_reply(
    image: &mut [u8],
    peer: u64,
    row: u64,
    col: u64,
    ballot: u64,
    out: &mut [u8],
) -> u64
    ensures result { result ≡ (plain_call (λ t. accept_reply t (message_of peer row col ballot)) image.old out.old).code }
    ensures table { image.new ≡ (plain_call (λ t. accept_reply t (message_of peer row col ballot)) image.old out.old).image }
    ensures bytes { out.new ≡ (plain_call (λ t. accept_reply t (message_of peer row col ballot)) image.old out.old).out }
{
    host::messages::nj_accept_reply(image, peer, row, col, ballot, out)
}

#[unsafe(no_mangle)]
pub extern "C" fn nj_exp_prepare(
    image: &mut [u8],
    peer: u64,
    row: u64,
    col: u64,
    ballot: u64,
    out: &mut [u8],
) -> u64
    ensures result { result ≡ (plain_call (λ t. exp_prepare t (message_of peer row col ballot)) image.old out.old).code }
    ensures table { image.new ≡ (plain_call (λ t. exp_prepare t (message_of peer row col ballot)) image.old out.old).image }
    ensures bytes { out.new ≡ (plain_call (λ t. exp_prepare t (message_of peer row col ballot)) image.old out.old).out }
{
    host::messages::nj_exp_prepare(image, peer, row, col, ballot, out)
}

#[unsafe(no_mangle)]
pub extern "C" fn nj_lead(image: &mut [u8], row: u64, col: u64, out: &mut [u8]) -> u64
    ensures result { result ≡ (plain_call (λ t. lead_slot t (place_of row col)) image.old out.old).code }
    ensures table { image.new ≡ (plain_call (λ t. lead_slot t (place_of row col)) image.old out.old).image }
    ensures bytes { out.new ≡ (plain_call (λ t. lead_slot t (place_of row col)) image.old out.old).out }
{
    host::messages::nj_lead(image, row, col, out)
}
