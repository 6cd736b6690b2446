// Dependency sets: seven bytes, per row 0 for nothing or a column and one.
ghost use Rattle.std.specs.Prelude.{◌≡◌, ◌+◌, ◌≤◌, length, drop};
ghost use Rattle.layout.specs.Numbers.{lay};
ghost use Rattle.octets.specs.Sets.{rows_at, set_at, set_bytes};

use deps::sets::DepSet;
use std::array;

// The numbers of a set, row by row.
pub fn cols_at(s: &[u8], at: usize) -> [u8; 7]
    requires { at + 7 ≤ length s.now }
    ensures { result ≡ rows_at (drop at s.now) }
{
    array::from_fn(|row| s[at + row])
}

pub fn set_at(s: &[u8], at: usize) -> DepSet
    requires { at + 7 ≤ length s.now }
    ensures { result ≡ set_at (drop at s.now) }
{
    DepSet {
        cols: cols_at(s, at),
    }
}

pub fn put_set(out: &mut [u8], at: usize, d: DepSet)
    requires { at + 7 ≤ length out.old }
    ensures { out.new ≡ lay out.old at (set_bytes d) }
{
    out[at..at + 7].copy_from_slice(&d.cols);
}
