// The union of two dependency sets.
ghost use Rattle.std.specs.Prelude.{◌≡◌};
ghost use Rattle.host.specs.Union.{union_code, union_bytes};

use calls::calls::SHORT;
use deciding::codes;
use octets::sets::{put_set, set_at};

// a, b: a dependency set each, 7 bytes, per row 0 for nothing or a column and one.
// out: 7 bytes, the union.
// Longer slices are allowed: what is past these bytes is neither read nor written.
// Answers 100, and out is written; 0 where a slice is short, and out stays as it was.
#[inline(never)]
#[tactic(auto, unfolding(crate::specs::Union::union_long))]
pub fn nj_union(a: &[u8], b: &[u8], out: &mut [u8]) -> u64
    ensures result { result ≡ union_code a.now b.now out.old }
    ensures bytes { out.new ≡ union_bytes a.now b.now out.old }
{
    if a.len() < 7 || b.len() < 7 || out.len() < 7 {
        return SHORT;
    }
    put_set(out, 0, set_at(a, 0).union(set_at(b, 0)));
    codes::DONE
}
