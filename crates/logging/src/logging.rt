// A log event on an image.
ghost use Rattle.std.specs.Prelude.{◌≡◌, true, ◌≤◌, length};
ghost use Rattle.base.specs.declared.log_status.LogStatus.TheVariants.{Committed};
ghost use Rattle.image.specs.Tables.{image_width, image_known, table_at};
ghost use Rattle.output_bytes.specs.Output.{output_width};
ghost use Rattle.calls.specs.Calls.{settled};
ghost use Rattle.attempting.specs.Attempting.{ran_width, settled_ran};
ghost use Rattle.logging.specs.Logging.{log_long, log_call, event_on, reply_on};

use attempting::attempting::put_ran;
use base::log_status::LogStatus;
use base::refusals::Refusal;
use calls::calls::{SHORT, settle, settle_at};
use deps::batches::Batch;
use image::tables;
use image::tables::{is_known, table_at};
use in_place::view::look_at;
use logged::logged::logged;
use logged::replies::{Reply, replied};
use outcomes::refusal::of_led;
use output_bytes::output;
use table::place::Place;

// status: 1 pre-accepting, 2 accepting, 3 committed. order: the lent order list. ran: how many slots have run, a word.
#[tactic(auto, unfolding(crate::specs::Logging::log_call))]
pub fn logged_on(
    image: &mut [u8],
    row: usize,
    col: usize,
    status: u64,
    order: &mut [u8],
    ran: &mut [u8],
    out: &mut [u8],
) -> u64
    ensures result { result ≡ (log_call row col status image.old order.old ran.old out.old).code }
    ensures table { image.new ≡ (log_call row col status image.old order.old ran.old out.old).image }
    ensures list { order.new ≡ (log_call row col status image.old order.old ran.old out.old).order }
    ensures count { ran.new ≡ (log_call row col status image.old order.old ran.old out.old).ran }
    ensures bytes { out.new ≡ (log_call row col status image.old order.old ran.old out.old).out }
{
    if !is_long(image, ran, out) {
        return SHORT;
    }
    let event = match LogStatus::try_from(status) {
        Ok(event) => event,
        Err(refusal) => return refusal.number(),
    };
    if order.len() < 224 {
        return Refusal::ShortOrder.number();
    }
    if !is_known(image) {
        return Refusal::OutsideBounds.number();
    }
    let at = Place { row, col };
    match event {
        LogStatus::PreAccepting => replied_on(Reply::PreAccept, at, image, ran, out),
        LogStatus::Accepting => replied_on(Reply::Accept, at, image, ran, out),
        LogStatus::Committed => committed_on(at, image, order, ran, out),
    }
}

// Logged PreAccepting or Accepting: one slot is looked at, and no slot runs, so no table is read. Image, order, ran and out are lent
// by C, each with its length.
fn replied_on(reply: Reply, at: Place, image: &mut [u8], ran: &mut [u8], out: &mut [u8]) -> u64
    requires image_len { length image.old ≡ image_width }
    requires image_value { image_known image.old ≡ true }
    requires ran_width_in_bounds { ran_width ≤ length ran.old }
    requires output_width_in_bounds { output_width ≤ length out.old }
    ensures result { result ≡ (settled (reply_on reply (table_at image.old) at).outcome image.old out.old).code }
    ensures table { image.new ≡ (settled (reply_on reply (table_at image.old) at).outcome image.old out.old).image }
    ensures count { ran.new ≡ settled_ran (reply_on reply (table_at image.old) at).outcome.answer (reply_on reply (table_at image.old) at).ran ran.old }
    ensures bytes { out.new ≡ (settled (reply_on reply (table_at image.old) at).outcome image.old out.old).out }
{
    let view = look_at(image, at, Batch::NO_OP);
    if let Err(refusal) = of_led(view.within, view.config.n, view.held, at) {
        return refusal.number();
    }
    let change = replied(reply, view, at);
    put_ran(change.answer, 0, ran);
    settle_at(change, at, image, out)
}

// Logged Committed: on the table, by value.
fn committed_on(
    at: Place,
    image: &mut [u8],
    order: &mut [u8],
    ran: &mut [u8],
    out: &mut [u8],
) -> u64
    requires image_len { length image.old ≡ image_width }
    requires ran_width_in_bounds { ran_width ≤ length ran.old }
    requires output_width_in_bounds { output_width ≤ length out.old }
    ensures result { result ≡ (event_on at Committed image.old order.old ran.old out.old).code }
    ensures table { image.new ≡ (event_on at Committed image.old order.old ran.old out.old).image }
    ensures list { order.new ≡ (event_on at Committed image.old order.old ran.old out.old).order }
    ensures count { ran.new ≡ (event_on at Committed image.old order.old ran.old out.old).ran }
    ensures bytes { out.new ≡ (event_on at Committed image.old order.old ran.old out.old).out }
{
    let done = logged(table_at(image), at, LogStatus::Committed, order);
    put_ran(done.outcome.answer, done.ran, ran);
    settle(done.outcome, image, out)
}

// Whether the image has its length, and ran and out theirs or more.
#[tactic(auto, unfolding(crate::specs::Logging::log_long))]
fn is_long(image: &[u8], ran: &[u8], out: &[u8]) -> bool
    ensures { result ≡ log_long image.now ran.now out.now }
{
    image.len() == tables::WIDTH && 8 <= ran.len() && output::WIDTH <= out.len()
}
