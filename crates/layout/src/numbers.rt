// Numbers in a byte slice, low byte first. All functions of bytes take a slice and a place in it, and ask for room from there on: so
// docs/ENTRIES.md names them, and their definitions speak of what lies from the place on.
ghost use Rattle.std.specs.Prelude.{◌≡◌, [], ◌∷◌, ◌+◌, ◌≤◌, min, length, drop};
ghost use Rattle.layout.specs.Numbers.{word_of, word_bytes, short_of, short_bytes, lay};

use std::array;

// Eight bytes.
pub fn word(s: &[u8], at: usize) -> u64
    requires { at + 8 ≤ length s.now }
    ensures { result ≡ word_of (drop at s.now) }
{
    u64::from_le_bytes(array::from_fn(|i| s[at + i]))
}

pub fn put_word(out: &mut [u8], at: usize, v: u64)
    requires { at + 8 ≤ length out.old }
    ensures { out.new ≡ lay out.old at (word_bytes v) }
{
    out[at..at + 8].copy_from_slice(&v.to_le_bytes());
}

// Two bytes: a key.
pub(crate) fn short(s: &[u8], at: usize) -> u16
    requires { at + 2 ≤ length s.now }
    ensures { result ≡ short_of (drop at s.now) }
{
    u16::from_le_bytes([s[at], s[at + 1]])
}

pub(crate) fn put_short(out: &mut [u8], at: usize, v: u16)
    requires { at + 2 ≤ length out.old }
    ensures { out.new ≡ lay out.old at (short_bytes v) }
{
    out[at..at + 2].copy_from_slice(&v.to_le_bytes());
}

pub fn put_byte(out: &mut [u8], at: usize, b: u8)
    requires { at + 1 ≤ length out.old }
    ensures { out.new ≡ lay out.old at (b ∷ []) }
{
    out[at] = b;
}

// A number as one byte. One that no byte holds is written as 255 (`min v 255`), which nothing within the bounds has.
pub fn byte(v: usize) -> u8
    ensures { result ≡ min v 255 }
{
    u8::try_from(v).unwrap_or(u8::MAX)
}
