// The columns kept per key: for each key the highest column of each row whose slot puts it.
ghost use Rattle.std.specs.Prelude.{◌≡◌, ◌<◌};
ghost use Rattle.keys.specs.Columns.{keys_of, empty_keys, columns_of, keys_fit, identify_of, raise_key, refreshed_by};

use deps::batches::{Batch, Kind};
use deps::sets::DepSet;

#[derive(Clone, Copy, Debug, PartialEq, Eq)]
pub struct Keys {
    pub cols: [[u8; 7]; 256],
}

impl Keys {
    // No column for any key.
    pub const EMPTY: Keys = Keys {
        cols: [[0; 7]; 256],
    };

    // This and the next say what the field says: they stay, since docs/ENTRIES.md names them.
    pub fn of(cols: [[u8; 7]; 256]) -> Keys
        ensures { result ≡ keys_of cols }
    {
        Keys { cols }
    }

    pub fn rows(self) -> [[u8; 7]; 256]
        ensures { result ≡ self.cols }
    {
        self.cols
    }

    // The constant, by the name that README.md and docs/ENTRIES.md have.
    pub fn empty() -> Keys
        ensures { result ≡ empty_keys }
    {
        Keys::EMPTY
    }

    // Every key's columns within the bounds of n rows.
    pub fn fits(self, n: usize) -> bool
        ensures { result ≡ keys_fit n self }
    {
        self.cols.iter().all(|&cols| DepSet { cols }.fits(n))
    }

    // The union of the columns of all puts and gets.
    pub fn identify(self, batch: Batch) -> DepSet
        ensures { result ≡ identify_of self batch }
    {
        let mut out = DepSet::EMPTY;
        for request in batch.requests() {
            if let Kind::Put { key, .. } | Kind::Get { key } = request.kind {
                out = out.union(self.columns(usize::from(key)));
            }
        }
        out
    }

    // The slot's row raised to its column for each put key; gets are not entered.
    pub fn refresh(self, row: usize, col: usize, batch: Batch) -> Keys
        requires { col < 32 }
        ensures { result ≡ refreshed_by self row col batch }
    {
        let mut out = self;
        for request in batch.requests() {
            if let Kind::Put { key, .. } = request.kind {
                out.raise(usize::from(key), row, col);
            }
        }
        out
    }

    // The columns of a key; a key above 255 has none.
    fn columns(&self, key: usize) -> DepSet
        ensures { result ≡ columns_of self.now key }
    {
        self.cols
            .get(key)
            .map_or(DepSet::EMPTY, |&cols| DepSet { cols })
    }

    // The key's row raised to the column; a key above 255 has none to raise.
    fn raise(&mut self, key: usize, row: usize, col: usize)
        requires { col < 32 }
        ensures { self.new ≡ raise_key row col self.old key }
    {
        if key < 256 {
            let DepSet { cols } = self.columns(key).raised(row, col);
            self.cols[key] = cols;
        }
    }
}
