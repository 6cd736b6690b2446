// Cases of dependency sets.
use super::text::Set;
use deps::batches::{Batch, Kind, Request};
use deps::sets::DepSet;
use keys::columns::Keys;
use std::io;

pub(crate) fn unions(rt: &impl Print) -> io::Result<()> {
    let a = DepSet {
        cols: [2, 0, 4, 0, 0, 0, 0],
    };
    let b = DepSet {
        cols: [3, 5, 0, 0, 0, 0, 0],
    };
    union(rt, a, b)?;
    union(rt, b, a)?;
    union(rt, a, DepSet::EMPTY)
}

fn union(rt: &impl Print, a: DepSet, b: DepSet) -> io::Result<()> {
    println!(rt; "{} union {} = {}", Set(a), Set(b), Set(a.union(b)))
}

// What batches wait for after 0.1 put 5, 1.3 put 5, 0.2 put 7 and 2.0 got 5.
pub(crate) fn identifies(rt: &impl Print) -> io::Result<()> {
    let keys = Keys::empty()
        .refresh(0, 1, Batch::of(put(5)))
        .refresh(1, 3, Batch::of(put(5)))
        .refresh(0, 2, Batch::of(put(7)))
        .refresh(2, 0, Batch::of(get(5)));
    identify(rt, "get 5", keys, Batch::of(get(5)))?;
    identify(rt, "put 7", keys, Batch::of(put(7)))?;
    identify(rt, "put 5, get 7", keys, Batch::of(put(5)).with(get(7)))?;
    identify(rt, "get 6", keys, Batch::of(get(6)))?;
    identify(rt, "other", keys, Batch::of(Request::NONE))
}

fn identify(rt: &impl Print, what: &str, keys: Keys, batch: Batch) -> io::Result<()> {
    println!(rt; "{what} waits for {}", Set(keys.identify(batch)))
}

pub(crate) fn put(key: u16) -> Request {
    Request {
        client: 1,
        id: 1,
        kind: Kind::Put { key, value: 9 },
    }
}

fn get(key: u16) -> Request {
    Request {
        client: 1,
        id: 1,
        kind: Kind::Get { key },
    }
}
