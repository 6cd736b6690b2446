// The table, by value.
ghost use Rattle.std.specs.Prelude.{◌≡◌, ◌<◌};
ghost use Rattle.keys.specs.Columns.{identify_of};
ghost use Rattle.table.specs.Table.{empty_table, holds, slot_of, put_at, nulls_to, stored_at};

use super::place::Place;
use base::config::Config;
use deps::batches::Batch;
use deps::sets::DepSet;
use keys::columns::Keys;
use slots::slot::Slot;

// The slot of row r and column c stands at 32 * r + c. What stands past a row's length is nobody's. Fixed arrays beside their
// lengths, and no Vec: there is no heap, and `table_bytes` has them so.
#[derive(Clone, Copy)]
pub struct Table {
    pub config: Config,
    pub slots: [Slot; 224],
    pub lens: [usize; 7],
    pub bars: [usize; 7], // the commit bars
    pub keys: Keys,
}

impl Table {
    // The slots of an empty table.
    pub const NULLS: [Slot; 224] = [Slot::NULL; 224];

    // No slot in any row, every bar at 0, no key entered.
    #[tactic(auto, unfolding(crate::specs::Table::empty_table))]
    pub fn empty(config: Config) -> Table
        ensures { result ≡ empty_table config }
    {
        Table {
            config,
            slots: Table::NULLS,
            lens: [0; 7],
            bars: [0; 7],
            keys: Keys::EMPTY,
        }
    }

    // Whether the place has a slot. docs/ENTRIES.md names it; `Shown` has the same of a table in bytes.
    #[tactic(auto, unfolding(crate::specs::Table::holds))]
    pub fn holds(self, at: Place) -> bool
        ensures { result ≡ holds self at }
    {
        at.is_in(self.lens)
    }

    pub fn slot(self, at: Place) -> Slot
        requires row_bound { at.row < 7 }
        requires col_bound { at.col < 32 }
        ensures { result ≡ slot_of self at }
    {
        self.slots[at.index()]
    }

    // The slot at the place; no key is entered.
    pub fn put(self, at: Place, slot: Slot) -> Table
        requires row_bound { at.row < 7 }
        requires col_bound { at.col < 32 }
        ensures { result ≡ put_at self at slot }
    {
        let mut out = self;
        out.slots[at.index()] = slot;
        out
    }

    // The slot at the place, and the keys refreshed with its batch.
    #[tactic(auto, unfolding(crate::specs::Table::stored_at))]
    pub fn store(self, at: Place, slot: Slot) -> Table
        requires row_bound { at.row < 7 }
        requires col_bound { at.col < 32 }
        ensures { result ≡ stored_at self at slot }
    {
        let mut out = self.put(at, slot);
        out.keys = out.keys.refresh(at.row, at.col, slot.batch);
        out
    }

    // Null slots up to the column.
    pub fn fill(self, at: Place) -> Table
        requires row_bound { at.row < 7 }
        requires col_bound { at.col < 32 }
        ensures { result ≡ nulls_to self at }
    {
        // taken out first: an index into a table that is passed by value copies all of it
        let lens = self.lens;
        let len = lens[at.row];
        if at.col < len {
            return self;
        }
        let mut out = self;
        out.slots[32 * at.row + len..=32 * at.row + at.col].fill(Slot::NULL);
        out.lens[at.row] = at.col + 1;
        out
    }

    // The set that the batch waits for, as this table knows it. docs/ENTRIES.md names it.
    pub fn identify(self, batch: Batch) -> DepSet
        ensures { result ≡ identify_of self.keys batch }
    {
        self.keys.identify(batch)
    }
}
