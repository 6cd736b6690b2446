// The cases of a list, one after the other. A new kind of cases has a module like union.rt, its name and number in kind.rt, an
// arm in case, and its count in tally.rt.
use super::kind::Kind;
use super::list::{List, first_line};
use super::outcome::Outcome;
use super::tally::Tally;
use super::{choice, fast, identify, run, union};
use host::recovery::{nj_paper_choice, nj_rust_choice};
use std::io;

pub(crate) fn replay(rt: &impl Print, list: &[u8]) -> io::Result<()> {
    rt.write_all(first_line(list))?;
    rt.write_all(b"\n")?;
    let tally = match List::after_head(list) {
        Some(mut rest) => cases(rt, &mut rest)?,
        None => Tally::NONE.with(rt, None, None)?,
    };
    tally.print(rt)
}

// A proved loop has to end, and nothing says here that a case takes a byte. So the loop has as many turns as no list uses up.
fn cases(rt: &impl Print, list: &mut List) -> io::Result<Tally> {
    let mut tally = Tally::NONE;
    for _ in 0..u64::MAX {
        if list.is_empty() {
            break;
        }
        let kind = next_kind(list);
        let outcome = match kind {
            Some(kind) => case(list, kind),
            None => None,
        };
        tally = tally.with(rt, kind, outcome)?;
        if outcome.is_none() {
            break;
        }
    }
    Ok(tally)
}

fn next_kind(list: &mut List) -> Option<Kind> {
    Kind::try_from(list.any()?).ok()
}

// A case, from what comes after its kind on; None where it cannot be read.
fn case(list: &mut List, kind: Kind) -> Option<Outcome> {
    match kind {
        Kind::Union => union::case(list),
        Kind::FastDecision => fast::case(list),
        Kind::RustChoice => choice::case(list, nj_rust_choice),
        Kind::PaperChoice => choice::case(list, nj_paper_choice),
        Kind::Identify => identify::case(list),
        Kind::Run => run::case(list),
    }
}
