// A log event on a table's image, for C. crates/host/src/log.rt says what the slices hold and what is answered.
ghost use Rattle.std.specs.Prelude.{◌≡◌};
ghost use Rattle.logging.specs.Logging.{log_call};

#[unsafe(no_mangle)]
pub extern "C" fn nj_logged(
    image: &mut [u8],
    row: u64,
    col: u64,
    status: u64,
    order: &mut [u8],
    ran: &mut [u8],
    out: &mut [u8],
) -> u64
    ensures result { result ≡ (log_call row col status image.old order.old ran.old out.old).code }
    ensures table { image.new ≡ (log_call row col status image.old order.old ran.old out.old).image }
    ensures list { order.new ≡ (log_call row col status image.old order.old ran.old out.old).order }
    ensures count { ran.new ≡ (log_call row col status image.old order.old ran.old out.old).ran }
    ensures bytes { out.new ≡ (log_call row col status image.old order.old ran.old out.old).out }
{
    host::log::nj_logged(image, row, col, status, order, ran, out)
}
