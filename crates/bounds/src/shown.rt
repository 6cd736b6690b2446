// A table that can be looked at, wherever it stands: by value, or in bytes.
ghost use Rattle.std.specs.Prelude.{◌≡◌, true, ◌<◌};
ghost use Rattle.slots.specs.Slot.{slot_fits};
ghost use Rattle.table.specs.Table.{holds, slot_no};
ghost use Rattle.table.specs.declared.table.Table.{Table};

use base::config::Config;
use keys::columns::Keys;
use slots::slot::Slot;
use table::place::Place;
use table::table::Table;

// Each look at a table is said once, of whatever shows one: what it asks for is read, and no more.
pub trait Shown {
    // The table that it shows.
    ghost table: { Self → Table };

    fn config(&self) -> Config
        ensures { result ≡ (table self.now).config };

    fn lens(&self) -> [usize; 7]
        ensures { result ≡ (table self.now).lens };

    fn bars(&self) -> [usize; 7]
        ensures { result ≡ (table self.now).bars };

    fn keys(&self) -> Keys
        ensures { result ≡ (table self.now).keys };

    // The slot that stands at 32 * row + column.
    fn slot_no(&self, i: usize) -> Slot
        requires { i < 224 }
        ensures { result ≡ slot_no (table self.now) i };

    // Whether that slot is within the bounds of n rows.
    fn slot_fits(&self, i: usize, n: usize) -> bool
        requires { i < 224 }
        ensures { result ≡ slot_fits n (slot_no (table self.now) i) };

    // Whether the place has a slot.
    final fn holds(&self, at: Place) -> bool
        ensures value { result ≡ holds (table self.now) at }
        ensures inside { result ≡ true → (at.row < 7) × (at.col < 32) }
    {
        at.is_in(self.lens())
    }
}

impl Shown for Table {
    ghost table = { λ t. t };

    fn config(&self) -> Config {
        self.config
    }

    fn lens(&self) -> [usize; 7] {
        self.lens
    }

    fn bars(&self) -> [usize; 7] {
        self.bars
    }

    fn keys(&self) -> Keys {
        self.keys
    }

    fn slot_no(&self, i: usize) -> Slot {
        self.slots[i]
    }

    fn slot_fits(&self, i: usize, n: usize) -> bool {
        self.slots[i].fits(n)
    }
}
