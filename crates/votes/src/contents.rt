// What a reply or vote says: sequence, dependencies, batch.
ghost use Rattle.std.specs.Prelude.{◌≡◌};
ghost use Rattle.votes.specs.Contents.{same_contents, join_of, entries_of};

use deps::batches::Batch;
use deps::sets::DepSet;

#[derive(Clone, Copy)]
pub struct Contents {
    pub seq: u64,
    pub deps: DepSet,
    pub batch: Batch,
}

impl Contents {
    // Nothing said.
    pub const NONE: Contents = Contents {
        seq: 0,
        deps: DepSet::EMPTY,
        batch: Batch::NO_OP,
    };

    // What a slot starts over with when nobody has voted for anything.
    pub const NO_OP: Contents = Contents {
        seq: 1,
        deps: DepSet::EMPTY,
        batch: Batch::NO_OP,
    };

    // Whether sequence, dependencies and batch are equal. A derived == is this test too, but it says so in words of its own: that they
    // are those of `same_contents` was tried and left open, where equal entries are counted.
    pub(crate) fn same(self, other: Contents) -> bool
        ensures { result ≡ same_contents self other }
    {
        self.seq == other.seq && self.deps.same(other.deps) && self.batch.same(other.batch)
    }

    // The greater sequence, and the union of the dependencies.
    pub fn join(self, other: Contents) -> Contents
        ensures { result ≡ join_of self other }
    {
        Contents {
            seq: self.seq.max(other.seq),
            deps: self.deps.union(other.deps),
            batch: self.batch,
        }
    }
}

// What each replica says, of three arrays as the host passes them (docs/ENTRIES.md).
pub fn entries(seqs: [u64; 7], deps: [[u8; 7]; 7], batches: [Batch; 7]) -> [Contents; 7]
    ensures { result ≡ entries_of seqs deps batches }
{
    std::array::from_fn(|r| Contents {
        seq: seqs[r],
        deps: DepSet { cols: deps[r] },
        batch: batches[r],
    })
}
