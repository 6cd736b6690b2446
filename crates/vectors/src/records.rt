// What an event of a run puts out, beside what the list has.
use super::contents::Contents;
use super::list::List;
use base::numbers::size;
use outcomes::output::{Output, Record, What};

// What a record is, the peer that it goes to, and the ballot that it was asked with, 0 where there is none: three numbers, of which
// the list may have any. Read as a What they would be an Option of an Option, None where the list ends and where no record is so.
#[derive(Clone, Copy, PartialEq, Eq)]
pub struct Head {
    pub what: u64,
    pub to: u64,
    pub asked: u64,
}

impl From<What> for Head {
    fn from(what: What) -> Head {
        let (what, to, asked) = match what {
            What::Nothing => (0, 0, 0),
            What::Log => (1, 0, 0),
            What::CommitNotice => (2, 0, 0),
            What::PreAcceptReply { to } => (3, to as u64, 0),
            What::AcceptReply { to } => (4, to as u64, 0),
            What::ExpPrepareReply { to, asked } => (5, to as u64, asked),
            What::NoteToSelf => (6, 0, 0),
        };
        Head { what, to, asked }
    }
}

// How many records there are, and then each.
pub(crate) fn same_output(list: &mut List, n: u64, output: Output) -> Option<bool> {
    let listed = size(list.number(2)?);
    let mut agree = output.count == listed;
    for record in output.records.iter().take(listed) {
        let same = same_record(list, n, *record)?;
        agree = agree && same;
    }
    Some(agree)
}

// Its head, its place, its contents.
fn same_record(list: &mut List, n: u64, record: Record) -> Option<bool> {
    let head = Head {
        what: list.any()?,
        to: list.any()?,
        asked: list.any()?,
    };
    let place = list.place()?;
    let contents = list.contents(n)?;
    Some(
        Head::from(record.what) == head && record.at == place && Contents::from(record) == contents,
    )
}
