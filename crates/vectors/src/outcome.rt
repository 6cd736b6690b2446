// How a case went.
use deciding::codes::DONE;

// What fills out before a call, so that what is written shows.
pub(crate) const UNTOUCHED: u8 = 0xA5;

// The number that the function answers, the one that the list has, and whether the contents are the list's too.
#[derive(Clone, Copy)]
pub struct Outcome {
    pub answers: u64,
    pub listed: u64,
    pub agree: bool,
}

impl Outcome {
    // Whether the case went as the list has it.
    pub(crate) fn is_right(self) -> bool {
        self.answers == self.listed && self.agree
    }

    // What comes after it in the same case: the numbers are those of the first of the two that is not right, and contents
    // that differ stay so.
    pub(crate) fn then(self, later: Outcome) -> Outcome {
        if self.is_right() {
            return later;
        }
        Outcome {
            agree: self.agree && later.agree,
            ..self
        }
    }
}

// Whether out, as the function leaves it, has the list's contents. Where there is nothing to go on with, out stays as it was
// and the list has zeros.
pub(crate) fn agree(listed: u64, out: &[u8], contents: &[u8]) -> bool {
    if goes_on(listed) {
        return out == contents;
    }
    are_all(contents, 0) && are_all(out, UNTOUCHED)
}

// 105 committed, 106 accepting, 107 pre-accepting; 104 is a wait. By the numbers that C gets, of which the list may have any: an
// enum of these four would be made of a number only to be asked whether there is one.
fn goes_on(code: u64) -> bool {
    matches!(code, DONE | 105 | 106 | 107)
}

pub(crate) fn are_all(bytes: &[u8], byte: u8) -> bool {
    bytes.iter().all(|&b| b == byte)
}
