// Whether bytes are among those that have a meaning, each below a bound.
ghost use Rattle.std.specs.Prelude.{◌≡◌, ◌+◌, ◌*◌, ◌<◌, length, drop};
ghost use Rattle.octets.specs.Known.{each_below};

// The bytes at at, at + step, .., at + step * (count - 1). The last of them is inside the slice; what would follow it need not be.
pub fn each_below(s: &[u8], at: usize, count: usize, step: usize, bound: u8) -> bool
    requires { at + step * count < length s.now + step }
    ensures { result ≡ each_below count step bound (drop at s.now) }
{
    (0..count).all(|i| s[at + step * i] < bound)
}
