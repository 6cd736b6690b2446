// A slot, by value.
ghost use Rattle.std.specs.Prelude.{◌≡◌, ◌<◌};
ghost use Rattle.slots.specs.Slot.{stored_with, heard_from, committed, leading, with_mark, is_executed, executed, slot_fits};

use base::marks;
use base::status::Status;
use deps::batches::Batch;
use deps::sets::DepSet;

// A slot that is led has a leader's accept marks; of one that is not they say nothing. They are no Option beside led: a store
// keeps both (`stored_with`), and the image has both. Wide fields first: a slot takes 168 bytes so, and a table of 224 stays
// below 40,000.
#[derive(Clone, Copy)]
pub struct Slot {
    pub ballot: u64,
    pub batch: Batch,
    pub seq: u32, // the limit of a sequence is that of its type
    pub status: Status,
    pub deps: DepSet,
    pub source: u8, // 0 for none, p + 1 for the peer p, and no Option: `heard_from` and `slot_fits` speak of it
    pub led: bool,
    pub marks: [bool; 7],
}

impl Slot {
    // A null slot, as one is added.
    pub const NULL: Slot = Slot {
        ballot: 0,
        status: Status::Null,
        seq: 0,
        deps: DepSet::EMPTY,
        batch: Batch::NO_OP,
        source: 0,
        led: false,
        marks: [false; 7],
    };

    // Ballot, status and contents stored; source, lead and marks stay.
    pub fn store(self, ballot: u64, status: Status, seq: u32, deps: DepSet, batch: Batch) -> Slot
        ensures { result ≡ stored_with self ballot status seq deps batch }
    {
        Slot {
            ballot,
            status,
            seq,
            deps,
            batch,
            ..self
        }
    }

    // The source is the peer.
    pub fn hear(self, peer: usize) -> Slot
        requires { peer < 7 }
        ensures { result ≡ heard_from self peer }
    {
        Slot {
            source: (peer + 1) as u8,
            ..self
        }
    }

    // Led, with no accept marks.
    pub fn lead(self) -> Slot
        ensures { result ≡ leading self }
    {
        Slot {
            led: true,
            marks: [false; 7],
            ..self
        }
    }

    // The peer marked.
    pub fn mark(self, peer: usize) -> Slot
        requires { peer < 7 }
        ensures { result ≡ with_mark self peer }
    {
        let mut out = self;
        out.marks[peer] = true;
        out
    }

    // Committed, as it stands.
    pub fn commit(self) -> Slot
        ensures { result ≡ committed self }
    {
        Slot {
            status: Status::Committed,
            ..self
        }
    }

    pub fn has_run(self) -> bool
        ensures { result ≡ is_executed self }
    {
        self.status == Status::Executed
    }

    // Executed, as it stands.
    pub fn run(self) -> Slot
        ensures { result ≡ executed self }
    {
        Slot {
            status: Status::Executed,
            ..self
        }
    }

    // Within the bounds of n rows.
    #[tactic(auto, unfolding(crate::specs::Slot::slot_fits))]
    pub fn fits(self, n: usize) -> bool
        ensures { result ≡ slot_fits n self }
    {
        usize::from(self.source) <= n
            && self.deps.fits(n)
            && self.batch.fits()
            && marks::fit(self.marks, n)
    }
}
