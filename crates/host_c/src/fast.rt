// The fast decision on the replies to a PreAccept, for C. crates/host/src/fast.rt says what the slices hold and what is answered.
ghost use Rattle.std.specs.Prelude.{◌≡◌};
ghost use Rattle.passed.specs.Slices.{config_of};
ghost use Rattle.deciding.specs.Fast.{fast_code, fast_bytes};

#[unsafe(no_mangle)]
pub extern "C" fn nj_fast_decision(
    n: u64,
    own: u64,
    simple: u64,
    sup: u64,
    avoided: u64,
    replies: &[u8],
    silent: &[u8],
    out: &mut [u8],
) -> u64
    ensures result { result ≡ fast_code (config_of n own simple sup) avoided replies.now silent.now out.old }
    ensures bytes { out.new ≡ fast_bytes (config_of n own simple sup) avoided replies.now silent.now out.old }
{
    host::fast::nj_fast_decision(n, own, simple, sup, avoided, replies, silent, out)
}
