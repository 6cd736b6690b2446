// The attempt on an image.
ghost use Rattle.std.specs.Prelude.{◌≡◌, ◌≤◌, length};
ghost use Rattle.base.specs.Answer.{number_of};
ghost use Rattle.image.specs.Tables.{image_width};
ghost use Rattle.calls.specs.Calls.{image_with};
ghost use Rattle.attempting.specs.Attempting.{ran_width, settled_ran, attempt_call};

use attempts::attempt::{Attempted, attempt};
use base::answer::Answer;
use base::refusals::Refusal;
use calls::calls::{SHORT, is_refused};
use image::tables;
use image::tables::{is_known, put_table, table_at};
use layout::numbers::put_word;
use table::place::Place;

// order: the lent order list. ran: how many slots have run, a word.
#[tactic(auto, unfolding(crate::specs::Attempting::attempt_call, crate::specs::Attempting::attempt_long))]
pub fn attempt_on(image: &mut [u8], row: usize, col: usize, order: &mut [u8], ran: &mut [u8]) -> u64
    ensures result { result ≡ (attempt_call row col image.old order.old ran.old).code }
    ensures table { image.new ≡ (attempt_call row col image.old order.old ran.old).image }
    ensures list { order.new ≡ (attempt_call row col image.old order.old ran.old).order }
    ensures count { ran.new ≡ (attempt_call row col image.old order.old ran.old).ran }
{
    if image.len() != tables::WIDTH || ran.len() < 8 {
        return SHORT;
    }
    if order.len() < 224 {
        return Refusal::ShortOrder.number();
    }
    if !is_known(image) {
        return Refusal::OutsideBounds.number();
    }
    let at = Place { row, col };
    let tried = attempt(table_at(image), at, order);
    settle(tried, image, ran)
}

// The answer's number, with the table and the number of slots written: a refusal writes nothing.
fn settle(tried: Attempted, image: &mut [u8], ran: &mut [u8]) -> u64
    requires image_len { length image.old ≡ image_width }
    requires ran_width_in_bounds { ran_width ≤ length ran.old }
    ensures result { result ≡ number_of tried.answer }
    ensures table { image.new ≡ image_with tried.answer tried.table image.old }
    ensures count { ran.new ≡ settled_ran tried.answer tried.ran ran.old }
{
    put_ran(tried.answer, tried.ran, ran);
    if !is_refused(tried.answer) {
        put_table(image, tried.table);
    }
    tried.answer.number()
}

// How many slots have run, a word: a refusal writes nothing.
pub fn put_ran(answer: Answer, many: usize, ran: &mut [u8])
    requires { ran_width ≤ length ran.old }
    ensures { ran.new ≡ settled_ran answer many ran.old }
{
    if !is_refused(answer) {
        put_word(ran, 0, many as u64);
    }
}
