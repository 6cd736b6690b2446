// The attempt on a table's image, for C. crates/host/src/attempt.rt says what the slices hold and what is answered.
ghost use Rattle.std.specs.Prelude.{◌≡◌};
ghost use Rattle.attempting.specs.Attempting.{attempt_call};

#[unsafe(no_mangle)]
pub extern "C" fn nj_attempt(
    image: &mut [u8],
    row: u64,
    col: u64,
    order: &mut [u8],
    ran: &mut [u8],
) -> u64
    ensures result { result ≡ (attempt_call row col image.old order.old ran.old).code }
    ensures table { image.new ≡ (attempt_call row col image.old order.old ran.old).image }
    ensures list { order.new ≡ (attempt_call row col image.old order.old ran.old).order }
    ensures count { ran.new ≡ (attempt_call row col image.old order.old ran.old).ran }
{
    host::attempt::nj_attempt(image, row, col, order, ran)
}
