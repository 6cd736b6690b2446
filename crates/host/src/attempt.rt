// The attempt on a table's image. docs/IMAGE.md has the layout and the numbers that are answered.
//
// image: 33,618 bytes, a table. order: the order list, 224 entries or more. ran: 8 bytes, how many slots have run.
// order and ran may be longer: what is past the slots run, and past the 8 bytes, stays as it was.
// Answers 0 where ran is short or the image has another length; 8 where order is short; 1 where a byte of the image stands
// for nothing; another refusal's number; 100 done, 102 not yet, 103 already. With 100, 102 and 103 image and ran are written,
// with 100 order too, and else all stay as they were.
ghost use Rattle.std.specs.Prelude.{◌≡◌};
ghost use Rattle.attempting.specs.Attempting.{attempt_call};

use attempting::attempting::attempt_on;
use base::numbers::size;

// An entry of the order list is 32 * row + column; the first is the first that ran.
#[inline(never)]
pub fn nj_attempt(image: &mut [u8], row: u64, col: u64, order: &mut [u8], ran: &mut [u8]) -> u64
    ensures result { result ≡ (attempt_call row col image.old order.old ran.old).code }
    ensures table { image.new ≡ (attempt_call row col image.old order.old ran.old).image }
    ensures list { order.new ≡ (attempt_call row col image.old order.old ran.old).order }
    ensures count { ran.new ≡ (attempt_call row col image.old order.old ran.old).ran }
{
    attempt_on(image, size(row), size(col), order, ran)
}
