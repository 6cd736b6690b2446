// What a peer sends.
use deps::batches::Batch;
use deps::sets::DepSet;
use table::place::Place;

// An AcceptReply or ExpPrepare, and the head of the others.
#[derive(Clone, Copy)]
pub struct Message {
    pub peer: usize,
    pub at: Place,
    pub ballot: u64,
}

// A PreAccept, Accept or CommitNotice.
#[derive(Clone, Copy)]
pub struct Proposal {
    pub message: Message,
    pub seq: u64,
    pub deps: DepSet,
    pub batch: Batch,
}
