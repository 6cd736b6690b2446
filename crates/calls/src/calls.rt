// A handler called on an image: the one shape that all their C functions have.
ghost use Rattle.std.specs.Prelude.{◌≡◌, true, ◌≤◌, length};
ghost use Rattle.base.specs.Answer.{is_refused};
ghost use Rattle.changes.specs.Change.{Inside, Makes, Seven, changed};
ghost use Rattle.image.specs.Tables.{image_width, image_known, table_at};
ghost use Rattle.output_bytes.specs.Output.{output_width};
ghost use Rattle.calls.specs.Calls.{settled, on_image, handled_by};

use base::answer::Answer;
use base::refusals::Refusal;
use changes::change::Change;
use changes::view::View;
use handlers::lead::led;
use handlers::prepare::answered;
use handlers::replies::reply;
use image::tables;
use image::tables::{is_known, put_table};
use in_place::change::apply_at;
use in_place::view::look_at;
use outcomes::message::Proposal;
use outcomes::outcome::Outcome;
use output_bytes::output;
use output_bytes::output::put_output;
use proposing::proposals::{Phase, take};
use table::place::Place;

// What is answered where a slice is short, or the image has another length.
pub const SHORT: u64 = 0;

// By name and not by a closure: `image_follows` speaks of every handler, and `handled_by` says what each name stands for.
#[derive(Clone, Copy, PartialEq, Eq, Debug)]
pub enum Handler {
    PreAccept,
    Accept,
    CommitNotice,
    AcceptReply,
    ExpPrepare,
    Lead,
}

// known: whether every byte of the event stands for something; apart from the proposal, and one proposal for all six, as `on_image`
// and `handled_by` take them. That the image has its width and is known is asked of each function below and no type says it: C
// lends slices of any length, and docs/ENTRIES.md names these functions for them.
#[tactic(auto, unfolding(crate::specs::Calls::on_image, crate::specs::Calls::call_long))]
pub fn call(
    handler: Handler,
    known: bool,
    proposal: Proposal,
    image: &mut [u8],
    out: &mut [u8],
) -> u64
    ensures result { result ≡ (on_image known (handled_by handler proposal) image.old out.old).code }
    ensures table { image.new ≡ (on_image known (handled_by handler proposal) image.old out.old).image }
    ensures bytes { out.new ≡ (on_image known (handled_by handler proposal) image.old out.old).out }
{
    if image.len() != tables::WIDTH || out.len() < output::WIDTH {
        return SHORT;
    }
    if !known || !is_known(image) {
        return Refusal::OutsideBounds.number();
    }
    let at = proposal.message.at;
    let view = look_at(image, at, proposal.batch);
    let change = decide(handler, view, proposal);
    settle_at(change, at, image, out)
}

// What the handler makes of every table that looks so.
fn decide(handler: Handler, view: View, proposal: Proposal) -> Change
    requires { Seven view }
    ensures { Makes (handled_by handler proposal) view proposal.message.at proposal.batch result }
{
    match handler {
        Handler::PreAccept => take(Phase::PreAccept, view, proposal),
        Handler::Accept => take(Phase::Accept, view, proposal),
        Handler::CommitNotice => take(Phase::CommitNotice, view, proposal),
        Handler::AcceptReply => reply(view, proposal.message),
        Handler::ExpPrepare => answered(view, proposal.message),
        Handler::Lead => led(view, proposal.message.at),
    }
}

// The answer's number, with the change and the output written where they stand: a refusal writes nothing.
pub fn settle_at(change: Change, at: Place, image: &mut [u8], out: &mut [u8]) -> u64
    requires image_len { length image.old ≡ image_width }
    requires image_value { image_known image.old ≡ true }
    requires output_width_in_bounds { output_width ≤ length out.old }
    requires inside { Inside change.extent at }
    ensures result { result ≡ (settled (changed (table_at image.old) at change) image.old out.old).code }
    ensures table { image.new ≡ (settled (changed (table_at image.old) at change) image.old out.old).image }
    ensures bytes { out.new ≡ (settled (changed (table_at image.old) at change) image.old out.old).out }
{
    if !is_refused(change.answer) {
        apply_at(image, at, change.slot, change.extent);
        put_output(out, change.output);
    }
    change.answer.number()
}

// The answer's number, with the table and the output written: a refusal writes nothing. Beside the one above, since what is
// written there is a change and here a whole table.
pub fn settle(outcome: Outcome, image: &mut [u8], out: &mut [u8]) -> u64
    requires image_len { length image.old ≡ image_width }
    requires output_width_in_bounds { output_width ≤ length out.old }
    ensures result { result ≡ (settled outcome image.old out.old).code }
    ensures table { image.new ≡ (settled outcome image.old out.old).image }
    ensures bytes { out.new ≡ (settled outcome image.old out.old).out }
{
    if !is_refused(outcome.answer) {
        put_table(image, outcome.table);
        put_output(out, outcome.output);
    }
    outcome.answer.number()
}

// docs/ENTRIES.md names it.
pub fn is_refused(answer: Answer) -> bool
    ensures { result ≡ is_refused answer }
{
    matches!(answer, Answer::Refused { .. })
}
