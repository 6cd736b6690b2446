// The counts of a replay, and what is printed of it: a line for each difference, and the counts.
use super::kind::Kind;
use super::outcome::Outcome;
use std::io;

// How many cases there are of each kind, and of all.
#[derive(Clone, Copy)]
pub struct Tally {
    pub union: u64,
    pub fast: u64,
    pub rust: u64,
    pub paper: u64,
    pub identify: u64,
    pub runs: u64,
    pub cases: u64,
    pub differences: u64,
}

impl Tally {
    pub const NONE: Tally = Tally {
        union: 0,
        fast: 0,
        rust: 0,
        paper: 0,
        identify: 0,
        runs: 0,
        cases: 0,
        differences: 0,
    };

    // With one case more; its kind is None where there is no such kind, its outcome where it cannot be read. A line says of one
    // that is not right how it went.
    pub(crate) fn with(
        self,
        rt: &impl Print,
        kind: Option<Kind>,
        outcome: Option<Outcome>,
    ) -> io::Result<Tally> {
        let mut tally = self.counted(kind);
        let case = tally.cases;
        match outcome {
            Some(outcome) if outcome.is_right() => return Ok(tally),
            Some(outcome) => print_difference(rt, case, outcome)?,
            None => println!(rt; "case {case} cannot be read")?,
        }
        more(&mut tally.differences);
        Ok(tally)
    }

    // A case of no kind that there is counts among all cases alone.
    fn counted(self, kind: Option<Kind>) -> Tally {
        let mut tally = self;
        more(&mut tally.cases);
        match kind {
            Some(Kind::Union) => more(&mut tally.union),
            Some(Kind::FastDecision) => more(&mut tally.fast),
            Some(Kind::RustChoice) => more(&mut tally.rust),
            Some(Kind::PaperChoice) => more(&mut tally.paper),
            Some(Kind::Identify) => more(&mut tally.identify),
            Some(Kind::Run) => more(&mut tally.runs),
            None => {}
        }
        tally
    }

    pub(crate) fn print(self, rt: &impl Print) -> io::Result<()> {
        println!(rt; "union {}", self.union)?;
        println!(rt; "fast decision {}", self.fast)?;
        println!(rt; "recovery choice, the Rust's counts {}", self.rust)?;
        println!(rt; "recovery choice, the paper's count {}", self.paper)?;
        println!(rt; "identify after refreshes {}", self.identify)?;
        println!(rt; "handlers in a run {}", self.runs)?;
        println!(rt; "{} cases, {} differences", self.cases, self.differences)
    }
}

fn more(count: &mut u64) {
    *count = count.wrapping_add(1);
}

fn print_difference(rt: &impl Print, case: u64, outcome: Outcome) -> io::Result<()> {
    let Outcome {
        answers,
        listed,
        ..
    } = outcome;
    if answers == listed {
        println!(rt; "case {case} differs: answers {answers} with other contents")
    } else {
        println!(rt; "case {case} differs: answers {answers}, the list has {listed}")
    }
}
