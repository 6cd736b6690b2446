// The kinds of cases.
#[derive(Clone, Copy, PartialEq, Eq)]
pub enum Kind {
    Union,
    FastDecision,
    RustChoice, // the recovery choice by the Rust's counts
    PaperChoice, // and by the paper's
    Identify,
    Run,
}

// The list has a number that stands for none.
#[derive(Clone, Copy, Debug)]
pub struct NoKind;

// The one that a number of the list stands for.
impl TryFrom<u64> for Kind {
    type Error = NoKind;

    fn try_from(number: u64) -> Result<Kind, NoKind> {
        match number {
            1 => Ok(Kind::Union),
            2 => Ok(Kind::FastDecision),
            3 => Ok(Kind::RustChoice),
            4 => Ok(Kind::PaperChoice),
            5 => Ok(Kind::Identify),
            6 => Ok(Kind::Run),
            _ => Err(NoKind),
        }
    }
}
