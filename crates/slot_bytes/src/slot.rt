// A slot, 142 bytes.
ghost use Rattle.std.specs.Prelude.{◌≡◌, true, ◌+◌, ◌≤◌, length, drop};
ghost use Rattle.slots.specs.Slot.{slot_fits};
ghost use Rattle.layout.specs.Numbers.{lay};
ghost use Rattle.slot_bytes.specs.Slot.{slot_at, slot_known, marks_bytes, head_bytes, slot_bytes};

use super::contents::{kinds_known, put_contents};
use base::status::Status;
use base::{marks, refusals};
use layout::batches::{batch_at, batch_fits, batch_plain};
use layout::numbers::{put_byte, put_word, word};
use octets::known::each_below;
use octets::marks::{mark_of, marks_at, status_of};
use octets::sets::set_at;
use slots::slot::Slot;

pub fn slot_at(s: &[u8], at: usize) -> Slot
    requires { at + 142 ≤ length s.now }
    ensures { result ≡ slot_at (drop at s.now) }
{
    Slot {
        ballot: word(s, at + 10),
        batch: batch_at(s, at + 33),
        // A sequence over the limit is read as the limit: who must refuse it tests it first.
        seq: u32::try_from(word(s, at + 18)).unwrap_or(u32::MAX),
        status: status_of(s[at]),
        deps: set_at(s, at + 26),
        source: s[at + 1],
        led: mark_of(s[at + 2]),
        marks: marks_at(s, at + 3),
    }
}

// Whether each of its bytes stands for something: status, led and marks, a sequence within the limit, kinds.
pub fn slot_known(s: &[u8], at: usize) -> bool
    requires { at + 142 ≤ length s.now }
    ensures { result ≡ slot_known (drop at s.now) }
{
    s[at] < 5
        && each_below(s, at + 2, 8, 1, 2)
        && word(s, at + 18) <= refusals::SEQUENCE_LIMIT
        && kinds_known(s, at + 18)
}

// Whether a slot is within the bounds of n rows; the parts that have none are not read.
pub fn slot_fits(s: &[u8], at: usize, n: usize) -> bool
    requires { at + 142 ≤ length s.now }
    ensures { result ≡ slot_fits n (slot_at (drop at s.now)) }
{
    usize::from(s[at + 1]) <= n
        && set_at(s, at + 26).fits(n)
        && batch_fits(s, at + 33)
        && marks::fit(marks_at(s, at + 3), n)
}

fn put_marks(out: &mut [u8], at: usize, marks: [bool; 7])
    requires { at + 7 ≤ length out.old }
    ensures { out.new ≡ lay out.old at (marks_bytes marks) }
{
    for (i, mark) in marks.iter().enumerate() {
        out[at + i] = u8::from(*mark);
    }
}

fn put_head(out: &mut [u8], at: usize, status: Status, source: u8, led: bool)
    requires { at + 3 ≤ length out.old }
    ensures { out.new ≡ lay out.old at (head_bytes status source led) }
{
    put_byte(out, at, status.rank());
    put_byte(out, at + 1, source);
    put_byte(out, at + 2, u8::from(led));
}

pub fn put_slot(out: &mut [u8], at: usize, slot: Slot)
    requires { at + 142 ≤ length out.old }
    ensures { out.new ≡ lay out.old at (slot_bytes slot) }
{
    put_head(out, at, slot.status, slot.source, slot.led);
    put_marks(out, at + 3, slot.marks);
    put_word(out, at + 10, slot.ballot);
    put_contents(out, at + 18, u64::from(slot.seq), slot.deps, slot.batch);
}

// A slot written again as it is read: the bytes of a key or value that a request's kind has none of become 0. Most have none
// to clear, and are not written.
pub fn clear_slot(out: &mut [u8], at: usize)
    requires at_in_bounds { at + 142 ≤ length out.old }
    requires out_value { slot_known (drop at out.old) ≡ true }
    ensures { out.new ≡ lay out.old at (slot_bytes (slot_at (drop at out.old))) }
{
    if !batch_plain(out, at + 33) {
        let slot = slot_at(out, at);
        put_slot(out, at, slot);
    }
}
