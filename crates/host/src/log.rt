// A log event on a table's image. docs/IMAGE.md has the layouts and the numbers that are answered.
//
// image: 33,618 bytes, a table. order: the order list, 224 entries or more. ran: 8 bytes, how many slots have run. out: 291
// bytes, what is put out. order, ran and out may be longer: what is past the slots run, and past these bytes, stays as it was.
// Answers 0 where ran or out is short or the image has another length; 10 where the number stands for no log status; 8 where
// order is short; 1 where a byte of the image stands for nothing; another refusal's number; 100 done. With 100 image, order,
// ran and out are written, and else all stay as they were.
ghost use Rattle.std.specs.Prelude.{◌≡◌};
ghost use Rattle.logging.specs.Logging.{log_call};

use base::numbers::size;
use logging::logging::logged_on;

// status: 1 pre-accepting, 2 accepting, 3 committed. An entry of the order list is 32 * row + column; the first is the first
// that ran.
#[inline(never)]
pub fn nj_logged(
    image: &mut [u8],
    row: u64,
    col: u64,
    status: u64,
    order: &mut [u8],
    ran: &mut [u8],
    out: &mut [u8],
) -> u64
    ensures result { result ≡ (log_call row col status image.old order.old ran.old out.old).code }
    ensures table { image.new ≡ (log_call row col status image.old order.old ran.old out.old).image }
    ensures list { order.new ≡ (log_call row col status image.old order.old ran.old out.old).order }
    ensures count { ran.new ≡ (log_call row col status image.old order.old ran.old out.old).ran }
    ensures bytes { out.new ≡ (log_call row col status image.old order.old ran.old out.old).out }
{
    logged_on(image, size(row), size(col), status, order, ran, out)
}
