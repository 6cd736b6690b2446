// Marks and statuses by their bytes, and the marks of seven replicas.
ghost use Rattle.std.specs.Prelude.{◌≡◌, ◌+◌, ◌≤◌, length, drop};
ghost use Rattle.octets.specs.Marks.{mark_of, status_of, marks_at};

use base::status::Status;
use std::array;

pub fn mark_of(b: u8) -> bool
    ensures { result ≡ mark_of b }
{
    b != 0
}

// A byte with no meaning is read as null: who must refuse it tests it first. No TryFrom: it is public, and cannot fail.
pub fn status_of(b: u8) -> Status
    ensures { result ≡ status_of b }
{
    match b {
        1 => Status::PreAccepting,
        2 => Status::Accepting,
        3 => Status::Committed,
        4 => Status::Executed,
        _ => Status::Null,
    }
}

// This and the like, of sets, rows, keys, slots and in passed, are a line each: what differs is the element that is read.
pub fn marks_at(s: &[u8], at: usize) -> [bool; 7]
    requires { at + 7 ≤ length s.now }
    ensures { result ≡ marks_at (drop at s.now) }
{
    array::from_fn(|i| mark_of(s[at + i]))
}
