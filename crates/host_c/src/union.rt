// The union of two dependency sets, for C. crates/host/src/union.rt says what the slices hold and what is answered.
ghost use Rattle.std.specs.Prelude.{◌≡◌};
ghost use Rattle.host.specs.Union.{union_code, union_bytes};

#[unsafe(no_mangle)]
pub extern "C" fn nj_union(a: &[u8], b: &[u8], out: &mut [u8]) -> u64
    ensures result { result ≡ union_code a.now b.now out.old }
    ensures bytes { out.new ≡ union_bytes a.now b.now out.old }
{
    host::union::nj_union(a, b, out)
}
