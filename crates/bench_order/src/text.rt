// How the program prints what an attempt answers and the slots run.
use std::{fmt, io};

// A slot as row.column. cases has a Display of this kind too: a crate that both programs see, for these lines alone, is no plainer.
#[derive(Clone, Copy)]
struct At(u8);

impl fmt::Display for At {
    fn fmt<W: fmt::Write>(&self, f: &mut fmt::Formatter<W>) -> fmt::Result {
        write!(f, "{}.{}", self.0 / 32, self.0 % 32)
    }
}

// How many slots have run, the first of them and the last.
pub(crate) fn ran(rt: &impl Print, slots: &[u8]) -> io::Result<()> {
    let count = slots.len();
    if let (Some(first), Some(last)) = (slots.first(), slots.last()) {
        println!(rt; " {count}, first {}, last {}", At(*first), At(*last))
    } else {
        println!(rt; " {count}")
    }
}
