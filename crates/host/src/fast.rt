// The fast decision on the replies to a PreAccept.
ghost use Rattle.std.specs.Prelude.{◌≡◌};
ghost use Rattle.passed.specs.Slices.{config_of};
ghost use Rattle.deciding.specs.Fast.{fast_code, fast_bytes};

use deciding::fast::answer;
use passed::slices::config;

// n, own, simple, sup: the configuration. avoided: 1 where the fast path is avoided, else 0.
// replies: 112 bytes; for each of 7 replicas: at 0 a mark, 1 byte, 1 where it replied, else 0; at 7 its sequence,
// 8 bytes, low byte first; at 63 its dependency set, 7 bytes, per row 0 for nothing or a column and one.
// silent: 7 marks, 1 where the replica is silent.
// out: 15 bytes: the sequence, 8; the dependency set, 7.
// Longer slices are allowed: what is past these bytes is neither read nor written.
// Answers 0 where a slice is short; 1 where a mark or avoided is above 1; a refusal's number; 104 wait;
// 105 committed, 106 accepting. out is written for 105 and 106, and else stays as it was.
#[inline(never)]
pub fn nj_fast_decision(
    n: u64,
    own: u64,
    simple: u64,
    sup: u64,
    avoided: u64,
    replies: &[u8],
    silent: &[u8],
    out: &mut [u8],
) -> u64
    ensures result { result ≡ fast_code (config_of n own simple sup) avoided replies.now silent.now out.old }
    ensures bytes { out.new ≡ fast_bytes (config_of n own simple sup) avoided replies.now silent.now out.old }
{
    answer(config(n, own, simple, sup), avoided, replies, silent, out)
}
