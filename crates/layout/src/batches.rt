// Requests, 27 bytes, and batches, 109.
ghost use Rattle.std.specs.Prelude.{◌≡◌, ◌+◌, ◌≤◌, length, drop};
ghost use Rattle.deps.specs.Batches.{kind_fits, batch_fits};
ghost use Rattle.layout.specs.Numbers.{lay};
ghost use Rattle.layout.specs.Batches.{kind_of, kind_byte, key_of, value_of, request_at, request_bytes, batch_at, batch_bytes, request_plain, batch_plain};

use super::numbers::{byte, put_byte, put_short, put_word, short, word};
use deps::batches::{Batch, Kind, Request};
use std::array;

// A byte with no meaning is read as other: who must refuse it tests it first. No TryFrom: `batch_at` cannot fail. The bytes of what
// a kind has none of are 0, as the layout has them (docs/IMAGE.md), so there is no Option here.
fn kind_of(b: u8, key: u16, value: u64) -> Kind
    ensures { result ≡ kind_of b key value }
{
    match b {
        1 => Kind::Put { key, value },
        2 => Kind::Get { key },
        _ => Kind::Other,
    }
}

fn kind_byte(kind: Kind) -> u8
    ensures { result ≡ kind_byte kind }
{
    match kind {
        Kind::Other => 0,
        Kind::Put { .. } => 1,
        Kind::Get { .. } => 2,
    }
}

fn key_of(kind: Kind) -> u16
    ensures { result ≡ key_of kind }
{
    match kind {
        Kind::Other => 0,
        Kind::Put { key, .. } | Kind::Get { key } => key,
    }
}

fn value_of(kind: Kind) -> u64
    ensures { result ≡ value_of kind }
{
    match kind {
        Kind::Put { value, .. } => value,
        Kind::Other | Kind::Get { .. } => 0,
    }
}

fn request_at(s: &[u8], at: usize) -> Request
    requires { at + 27 ≤ length s.now }
    ensures { result ≡ request_at (drop at s.now) }
{
    Request {
        client: word(s, at),
        id: word(s, at + 8),
        kind: kind_of(s[at + 16], short(s, at + 17), word(s, at + 19)),
    }
}

fn put_request(out: &mut [u8], at: usize, q: Request)
    requires { at + 27 ≤ length out.old }
    ensures { out.new ≡ lay out.old at (request_bytes q) }
{
    put_word(out, at, q.client);
    put_word(out, at + 8, q.id);
    put_byte(out, at + 16, kind_byte(q.kind));
    put_short(out, at + 17, key_of(q.kind));
    put_word(out, at + 19, value_of(q.kind));
}

pub fn batch_at(s: &[u8], at: usize) -> Batch
    requires { at + 109 ≤ length s.now }
    ensures { result ≡ batch_at (drop at s.now) }
{
    Batch {
        count: usize::from(s[at]),
        reqs: array::from_fn(|i| request_at(s, at + 1 + 27 * i)),
    }
}

pub fn put_batch(out: &mut [u8], at: usize, b: Batch)
    requires { at + 109 ≤ length out.old }
    ensures { out.new ≡ lay out.old at (batch_bytes b) }
{
    put_byte(out, at, byte(b.count));
    for (i, q) in b.reqs.iter().enumerate() {
        put_request(out, at + 1 + 27 * i, *q);
    }
}

// Whether the bytes of a key or value that the kind has none of are 0.
fn request_plain(s: &[u8], at: usize) -> bool
    requires { at + 27 ≤ length s.now }
    ensures { result ≡ request_plain (drop at s.now) }
{
    let kind = s[at + 16];
    kind == 1 || word(s, at + 19) == 0 && (kind == 2 || short(s, at + 17) == 0)
}

// Of all four requests, those past the batch's count too.
pub fn batch_plain(s: &[u8], at: usize) -> bool
    requires { at + 109 ≤ length s.now }
    ensures { result ≡ batch_plain (drop at s.now) }
{
    (0..4).all(|i| request_plain(s, at + 1 + 27 * i))
}

// Whether the key of a put or get is at most 255, whatever the value.
fn key_fits(s: &[u8], at: usize) -> bool
    requires { at + 27 ≤ length s.now }
    ensures { result ≡ kind_fits (request_at (drop at s.now)).kind }
{
    kind_of(s[at + 16], short(s, at + 17), 0).fits()
}

// Whether a batch is within the bounds, of which only count, kinds and keys have any.
pub fn batch_fits(s: &[u8], at: usize) -> bool
    requires { at + 109 ≤ length s.now }
    ensures { result ≡ batch_fits (batch_at (drop at s.now)) }
{
    let count = usize::from(s[at]);
    count <= 4 && (0..count).all(|i| key_fits(s, at + 1 + 27 * i))
}
