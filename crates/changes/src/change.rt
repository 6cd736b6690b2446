// What a handler makes of a table.
ghost use Rattle.std.specs.Prelude.{◌≡◌, leb};
ghost use Rattle.changes.specs.Change.{Inside, changed, changed_table, reach_of, refusing, ignoring};

use base::answer::Answer;
use outcomes::outcome::Outcome;
use outcomes::output::Output;
use slots::slot::Slot;
use table::place::Place;
use table::table::Table;

// How much of the table changes: nothing; null slots up to the column; after these the slot; after that the keys.
#[derive(Clone, Copy, PartialEq, Eq)]
pub enum Extent {
    Nothing,
    Nulls,
    Slot,
    Keys,
}

// Extent and slot apart, and no enum with the slot in its cases: `changed` and `changed_table` take them so.
#[derive(Clone, Copy)]
pub struct Change {
    pub slot: Slot,
    pub output: Output,
    pub answer: Answer,
    pub extent: Extent,
}

impl Change {
    // By its number, and not as a Refusal: every number is taken, and the type would ask more of callers.
    pub fn refused(number: u64) -> Change
        ensures { result ≡ refusing number }
    {
        Change {
            slot: Slot::NULL,
            output: Output::NONE,
            answer: Answer::Refused { number },
            extent: Extent::Nothing,
        }
    }

    pub fn ignored(extent: Extent) -> Change
        ensures { result ≡ ignoring extent }
    {
        Change {
            slot: Slot::NULL,
            output: Output::NONE,
            answer: Answer::Ignored,
            extent,
        }
    }

    // The table, by value, with the change at the place.
    pub fn apply(self, table: Table, at: Place) -> Outcome
        requires { Inside self.extent at }
        ensures { result ≡ changed table at self }
    {
        Outcome {
            answer: self.answer,
            table: self.extent.table(table, at, self.slot),
            output: self.output,
        }
    }
}

impl Extent {
    // The four in order: what has one has those before it. By cases, since a derived order would have to be tied to `reach_of`
    // again.
    pub fn has_nulls(self) -> bool
        ensures { result ≡ leb 1 (reach_of self) }
    {
        self != Extent::Nothing
    }

    pub fn has_slot(self) -> bool
        ensures { result ≡ leb 2 (reach_of self) }
    {
        matches!(self, Extent::Slot | Extent::Keys)
    }

    pub fn has_keys(self) -> bool
        ensures { result ≡ leb 3 (reach_of self) }
    {
        self == Extent::Keys
    }

    fn table(self, table: Table, at: Place, slot: Slot) -> Table
        requires { Inside self at }
        ensures { result ≡ changed_table self table at slot }
    {
        match self {
            Extent::Nothing => table,
            Extent::Nulls => table.fill(at),
            Extent::Slot => table.fill(at).put(at, slot),
            Extent::Keys => table.fill(at).store(at, slot),
        }
    }
}
