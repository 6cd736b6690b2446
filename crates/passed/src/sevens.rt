// Arrays by replica, one element for each of seven, as replies and votes have them.
ghost use Rattle.std.specs.Prelude.{◌≡◌, ◌+◌, ◌*◌, ◌≤◌, length, drop};
ghost use Rattle.octets.specs.Sets.{rows_at};
ghost use Rattle.passed.specs.Sevens.{words_at, sets_at, statuses_at, batches_at};

use base::status::Status;
use deps::batches::Batch;
use layout::batches::batch_at;
use layout::numbers::word;
use octets::marks::status_of;
use octets::sets::cols_at;
use std::array;

pub fn words_at(s: &[u8], at: usize) -> [u64; 7]
    requires { at + 56 ≤ length s.now }
    ensures { result ≡ words_at (drop at s.now) }
{
    array::from_fn(|i| word(s, at + 8 * i))
}

pub fn sets_at(s: &[u8], at: usize) -> [[u8; 7]; 7]
    requires { at + 49 ≤ length s.now }
    ensures { result ≡ sets_at (drop at s.now) }
{
    array::from_fn(
        |i|
            requires { at + 7 * i + 7 ≤ length s.now }
            ensures { result ≡ rows_at (drop (at + 7 * i) s.entry.now) }
        { cols_at(s, at + 7 * i) },
    )
}

pub fn statuses_at(s: &[u8], at: usize) -> [Status; 7]
    requires { at + 7 ≤ length s.now }
    ensures { result ≡ statuses_at (drop at s.now) }
{
    array::from_fn(|i| status_of(s[at + i]))
}

pub fn batches_at(s: &[u8], at: usize) -> [Batch; 7]
    requires { at + 763 ≤ length s.now }
    ensures { result ≡ batches_at (drop at s.now) }
{
    array::from_fn(|i| batch_at(s, at + 109 * i))
}
