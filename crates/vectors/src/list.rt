// The list: a head, which ends with an empty line, and then decimal numbers, each of which ends with one blank or newline.
ghost use Rattle.std.specs.Prelude.{◌≤◌, IfSome};

// What is left of a list. Where something cannot be read, all that reads answers None, and nothing more is asked for.
#[derive(Drop)]
pub struct List<'a> {
    rest: &'a [u8],
}

pub(crate) fn first_line(list: &[u8]) -> &[u8] {
    match list.iter().position(|&byte| byte == b'\n') {
        Some(end) => &list[..end],
        None => list,
    }
}

impl<'a> List<'a> {
    // What comes after the empty line that ends the head.
    pub(crate) fn after_head(list: &'a [u8]) -> Option<List<'a>> {
        let mut was_newline = false;
        for (at, &byte) in list.iter().enumerate() {
            let newline = byte == b'\n';
            if newline && was_newline {
                return Some(List {
                    rest: &list[at + 1..],
                });
            }
            was_newline = newline;
        }
        None
    }

    pub(crate) fn is_empty(&self) -> bool {
        self.rest.is_empty()
    }

    // The next number, if it is no more than its reader has room for. A list is long, so it is gone over once.
    pub(crate) fn number(&mut self, most: u64) -> Option<u64>
        ensures { IfSome result (λ value. value ≤ most) }
    {
        let rest = self.rest;
        let mut read = None;
        for (at, &byte) in rest.iter().enumerate() {
            if byte == b' ' || byte == b'\n' {
                self.rest = &rest[at + 1..];
                return read.filter(|&value| value <= most);
            }
            read = Some(with_digit(read.unwrap_or(0), byte)?);
        }
        None
    }

    // The next number, whatever it is.
    pub(crate) fn any(&mut self) -> Option<u64> {
        self.number(u64::MAX)
    }

    // The next number, if it is a byte.
    pub(crate) fn byte(&mut self) -> Option<u8> {
        u8::try_from(self.any()?).ok()
    }
}

// A number with one digit more. Nothing where the byte is no digit, or where the number would have more than 64 bits.
fn with_digit(value: u64, byte: u8) -> Option<u64> {
    let digit = byte.checked_sub(b'0').filter(|&digit| digit <= 9)?;
    value.checked_mul(10)?.checked_add(u64::from(digit))
}
