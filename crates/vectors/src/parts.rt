// What cases are made of: configurations, marks, sets, batches. What put_.. reads is put into bytes.
ghost use Rattle.std.specs.Prelude.{◌+◌, ◌≤◌, length, IfSome};

use super::list::List;
use base::numbers::size;
use deps::batches::{Batch, Kind, Request};
use deps::sets::DepSet;
use layout::batches::put_batch;
use layout::numbers::put_word;
use octets::sets::put_set;

// How many replicas there are, which one is mine, and how many make a quorum. Numbers of 64 bits and no base::config::Config,
// since the C functions take them so.
#[derive(Clone, Copy)]
pub struct Config {
    pub n: u64,
    pub own: u64,
    pub simple: u64,
    pub sup: u64,
}

impl List<'_> {
    pub(crate) fn config(&mut self) -> Option<Config> {
        Some(Config {
            n: self.number(7)?,
            own: self.any()?,
            simple: self.any()?,
            sup: self.any()?,
        })
    }

    // How many replicas are marked, and then which.
    pub(crate) fn put_marks(&mut self, marks: &mut [u8]) -> Option<()>
        requires { 7 ≤ length marks.old }
    {
        let count = self.number(7)?;
        for _ in 0..count {
            self.put_mark(marks)?;
        }
        Some(())
    }

    // A replica, marked by a 1 in its place.
    pub(crate) fn put_mark(&mut self, marks: &mut [u8]) -> Option<usize>
        requires { 7 ≤ length marks.old }
        ensures { IfSome result (λ replica. replica ≤ 6) }
    {
        let replica = size(self.number(6)?);
        marks[replica] = 1;
        Some(replica)
    }

    // A status, put as one byte.
    pub(crate) fn put_byte(&mut self, out: &mut [u8], to: usize) -> Option<()>
        requires { to + 1 ≤ length out.old }
    {
        out[to] = self.byte()?;
        Some(())
    }

    // A sequence, put as eight bytes.
    pub(crate) fn put_word(&mut self, out: &mut [u8], to: usize) -> Option<()>
        requires { to + 8 ≤ length out.old }
    {
        put_word(out, to, self.any()?);
        Some(())
    }

    // A set of n rows, put as seven bytes.
    pub(crate) fn put_set(&mut self, n: u64, out: &mut [u8], to: usize) -> Option<()>
        requires { to + 7 ≤ length out.old }
    {
        put_set(out, to, self.set(n)?);
        Some(())
    }

    // A batch, put as 109 bytes.
    pub(crate) fn put_batch(&mut self, out: &mut [u8], to: usize) -> Option<()>
        requires { to + 109 ≤ length out.old }
    {
        put_batch(out, to, self.batch()?);
        Some(())
    }

    // The first n rows, each 0 for nothing or a column and one; the others have nothing.
    pub(crate) fn set(&mut self, n: u64) -> Option<DepSet> {
        let mut set = DepSet::EMPTY;
        for number in set.cols.iter_mut().take(size(n)) {
            *number = self.byte()?;
        }
        Some(set)
    }

    // How many requests there are, and then client, id and kind of each.
    pub(crate) fn batch(&mut self) -> Option<Batch> {
        let held = self.number(4)?;
        let mut batch = Batch::NO_OP;
        for _ in 0..held {
            batch = batch.with(Request {
                client: self.any()?,
                id: self.any()?,
                kind: self.kind()?,
            });
        }
        Some(batch)
    }

    // 0 other; 1 put, with key and value; 2 get, with a key.
    fn kind(&mut self) -> Option<Kind> {
        match self.any()? {
            0 => Some(Kind::Other),
            1 => Some(Kind::Put {
                key: self.key()?,
                value: self.any()?,
            }),
            2 => Some(Kind::Get { key: self.key()? }),
            _ => None,
        }
    }

    fn key(&mut self) -> Option<u16> {
        u16::try_from(self.any()?).ok()
    }
}
