// A text that is written piece by piece: bytes, words, and numbers in decimal.
ghost use Rattle.std.specs.Prelude.{[], ◌∷◌};
ghost use Rattle.lines.specs.Decimal.{digits_of, pair_text};
ghost use Rattle.lines.specs.Text.{HasRoom, Wrote};

// The bytes lent for it, and the place of the next one.
#[derive(Drop)]
pub(crate) struct Text<'a> {
    pub(crate) bytes: &'a mut [u8],
    pub(crate) at: usize,
}

impl Text<'_> {
    pub(crate) fn put_byte(&mut self, byte: u8)
        requires { HasRoom self.old (byte ∷ []) }
        ensures { Wrote self.old self.new (byte ∷ []) }
    {
        self.bytes[self.at] = byte;
        self.at += 1;
    }

    pub(crate) fn put_word(&mut self, word: &[u8])
        requires { HasRoom self.old word.now }
        ensures { Wrote self.old self.new word.now }
    {
        let end = self.at + word.len();
        self.bytes[self.at..end].copy_from_slice(word);
        self.at = end;
    }

    // The higher digits first: only after them is the last one's place known.
    pub(crate) fn put_number(&mut self, number: u64)
        requires { HasRoom self.old (digits_of number) }
        ensures { Wrote self.old self.new (digits_of number) }
    {
        if 9 < number {
            self.put_number(number / 10);
        }
        self.put_byte(b'0' + (number % 10) as u8);
    }

    // A space, and two numbers with a mark between them.
    pub(crate) fn put_pair(&mut self, first: u64, mark: u8, second: u64)
        requires { HasRoom self.old (pair_text first mark second) }
        ensures { Wrote self.old self.new (pair_text first mark second) }
    {
        self.put_byte(b' ');
        self.put_number(first);
        self.put_byte(mark);
        self.put_number(second);
    }
}
