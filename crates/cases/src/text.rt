// How the program prints what a case answers: sets as [1,_,3], batches, decisions, slots, records.
use deps::batches::{Batch, Kind};
use deps::sets::DepSet;
use outcomes::output::{Output, Record, What};
use std::{fmt, io};
use table::place::Place;
use table::table::Table;
use votes::answer::Decision;
use votes::contents::Contents;

// A column, or _ for nothing.
#[derive(Clone, Copy)]
struct Column(u8);

impl fmt::Display for Column {
    fn fmt<W: fmt::Write>(&self, f: &mut fmt::Formatter<W>) -> fmt::Result {
        match self.0 {
            0 => f.write_str("_"),
            number => write!(f, "{}", number - 1),
        }
    }
}

// The first three rows: no case of this program has more in a set.
#[derive(Clone, Copy)]
pub(crate) struct Set(pub DepSet);

impl fmt::Display for Set {
    fn fmt<W: fmt::Write>(&self, f: &mut fmt::Formatter<W>) -> fmt::Result {
        let cols = self.0.cols;
        write!(
            f,
            "[{},{},{}]",
            Column(cols[0]),
            Column(cols[1]),
            Column(cols[2])
        )
    }
}

// Its first request: no case of this program has more in a batch.
#[derive(Clone, Copy)]
struct Requests(Batch);

impl fmt::Display for Requests {
    fn fmt<W: fmt::Write>(&self, f: &mut fmt::Formatter<W>) -> fmt::Result {
        if self.0.count == 0 {
            return f.write_str("empty");
        }
        match self.0.reqs[0].kind {
            Kind::Other => f.write_str("other"),
            Kind::Put { key, .. } => write!(f, "put {key}"),
            Kind::Get { key } => write!(f, "get {key}"),
        }
    }
}

// What a slot, a record or a decision holds.
#[derive(Clone, Copy)]
struct Values(Contents);

impl fmt::Display for Values {
    fn fmt<W: fmt::Write>(&self, f: &mut fmt::Formatter<W>) -> fmt::Result {
        write!(
            f,
            "({},{},{})",
            self.0.seq,
            Set(self.0.deps),
            Requests(self.0.batch)
        )
    }
}

#[derive(Clone, Copy)]
pub(crate) struct Decided(pub Decision);

impl fmt::Display for Decided {
    fn fmt<W: fmt::Write>(&self, f: &mut fmt::Formatter<W>) -> fmt::Result {
        match self.0 {
            Decision::Wait => f.write_str("wait"),
            Decision::Committed(contents) => write!(f, "Committed {}", Values(contents)),
            Decision::Accepting(contents) => write!(f, "Accepting {}", Values(contents)),
            Decision::PreAccepting(contents) => { write!(f, "PreAccepting {}", Values(contents)) }
            Decision::Refused { number } => write!(f, "refused {number}"),
        }
    }
}

// A slot as row.column.
#[derive(Clone, Copy)]
struct At(Place);

// By its entry in a list of slots run, which is 32 * row + column.
impl From<u8> for At {
    fn from(entry: u8) -> At {
        At(Place {
            row: usize::from(entry / 32),
            col: usize::from(entry % 32),
        })
    }
}

impl fmt::Display for At {
    fn fmt<W: fmt::Write>(&self, f: &mut fmt::Formatter<W>) -> fmt::Result {
        write!(f, "{}.{}", self.0.row, self.0.col)
    }
}

// Whom a record is for, and what it is.
#[derive(Clone, Copy)]
struct To(What);

impl fmt::Display for To {
    fn fmt<W: fmt::Write>(&self, f: &mut fmt::Formatter<W>) -> fmt::Result {
        match self.0 {
            What::Nothing => f.write_str("nothing"),
            What::Log => f.write_str("log"),
            What::CommitNotice => f.write_str("to all CommitNotice"),
            What::PreAcceptReply { to } => write!(f, "to {to} PreAcceptReply"),
            What::AcceptReply { to } => write!(f, "to {to} AcceptReply"),
            What::ExpPrepareReply { to, .. } => write!(f, "to {to} ExpPrepareReply"),
            What::NoteToSelf => f.write_str("to self"),
        }
    }
}

// How many slots the row has, and the one at the place; nothing of a place that is not in the table.
pub(crate) fn slot_at(rt: &impl Print, table: Table, at: Place) -> io::Result<()> {
    if !table.holds(at) || 7 <= at.row || 32 <= at.col {
        return Ok(());
    }
    let slot = table.slot(at);
    let values = Values(Contents {
        seq: u64::from(slot.seq),
        deps: slot.deps,
        batch: slot.batch,
    });
    let count = table.lens[at.row];
    print!(rt; "; slot {} of {count} {:?} {values}", At(at), slot.status)
}

// Each record that a call puts out.
pub(crate) fn output(rt: &impl Print, output: Output) -> io::Result<()> {
    for record in output.records.iter().take(output.count) {
        one(rt, *record)?;
    }
    Ok(())
}

fn one(rt: &impl Print, record: Record) -> io::Result<()> {
    let values = Values(Contents {
        seq: u64::from(record.seq),
        deps: record.deps,
        batch: record.batch,
    });
    print!(rt;
        "; {} {} ballot {} {:?} {values}",
        To(record.what),
        At(record.at),
        record.ballot,
        record.status
    )
}

// The slots that an attempt has run.
pub(crate) fn ran(rt: &impl Print, slots: &[u8]) -> io::Result<()> {
    for entry in slots {
        print!(rt; " {}", At::from(*entry))?;
    }
    Ok(())
}
