// What slots and records have alike: ballot, status, sequence, set, batch.
use super::list::List;
use deps::batches::Batch;
use deps::sets::DepSet;
use outcomes::output::Record;
use slots::slot::Slot;

// The status by its rank, for which the list may have any number.
#[derive(Clone, Copy, PartialEq, Eq)]
pub struct Contents {
    pub ballot: u64,
    pub status: u64,
    pub seq: u64,
    pub deps: DepSet,
    pub batch: Batch,
}

impl From<Slot> for Contents {
    fn from(slot: Slot) -> Contents {
        Contents {
            ballot: slot.ballot,
            status: u64::from(slot.status.rank()),
            seq: u64::from(slot.seq),
            deps: slot.deps,
            batch: slot.batch,
        }
    }
}

impl From<Record> for Contents {
    fn from(record: Record) -> Contents {
        Contents {
            ballot: record.ballot,
            status: u64::from(record.status.rank()),
            seq: u64::from(record.seq),
            deps: record.deps,
            batch: record.batch,
        }
    }
}

impl List<'_> {
    pub(crate) fn contents(&mut self, n: u64) -> Option<Contents> {
        Some(Contents {
            ballot: self.any()?,
            status: self.any()?,
            seq: self.any()?,
            deps: self.set(n)?,
            batch: self.batch()?,
        })
    }
}
