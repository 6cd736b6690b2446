// What a call puts out, for the host to log or send.
ghost use Rattle.std.specs.Prelude.{◌≡◌, [], ◌∷◌};
ghost use Rattle.outcomes.specs.Output.{record_of, output_of};

use base::status::Status;
use deps::batches::Batch;
use deps::sets::DepSet;
use slots::slot::Slot;
use table::place::Place;

// A record for the log; a broadcast; a reply to a peer, of which an ExpPrepare's names the ballot it was asked with; a note
// to self.
#[derive(Clone, Copy)]
pub enum What {
    Nothing, // what an output has past its records (`output_of`)
    Log,
    CommitNotice,
    PreAcceptReply { to: usize },
    AcceptReply { to: usize },
    ExpPrepareReply { to: usize, asked: u64 },
    NoteToSelf,
}

// With the values that the slot has then. What a reply or note has no use for is not sent.
#[derive(Clone, Copy)]
pub struct Record {
    pub what: What,
    pub at: Place,
    pub ballot: u64,
    pub status: Status,
    pub seq: u32,
    pub deps: DepSet,
    pub batch: Batch,
}

impl Record {
    pub const NONE: Record = Record {
        what: What::Nothing,
        at: Place { row: 0, col: 0 },
        ballot: 0,
        status: Status::Null,
        seq: 0,
        deps: DepSet::EMPTY,
        batch: Batch::NO_OP,
    };

    pub fn of(what: What, at: Place, slot: Slot) -> Record
        ensures { result ≡ record_of what at slot }
    {
        Record {
            what,
            at,
            ballot: slot.ballot,
            status: slot.status,
            seq: slot.seq,
            deps: slot.deps,
            batch: slot.batch,
        }
    }
}

// The first count records, in order. No call puts out more than two. Not a Vec: the libraries have no heap, and `output_of`
// says what stands past the count too.
#[derive(Clone, Copy)]
pub struct Output {
    pub count: usize,
    pub records: [Record; 2],
}

impl Output {
    pub const NONE: Output = Output {
        count: 0,
        records: [Record::NONE; 2],
    };

    pub fn one(only: Record) -> Output
        ensures { result ≡ output_of (only ∷ []) }
    {
        Output {
            count: 1,
            records: [only, Record::NONE],
        }
    }

    pub fn two(first: Record, second: Record) -> Output
        ensures { result ≡ output_of (first ∷ second ∷ []) }
    {
        Output {
            count: 2,
            records: [first, second],
        }
    }
}
