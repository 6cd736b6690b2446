// A slot's place.
ghost use Rattle.std.specs.Prelude.{◌≡◌, true, ◌&&◌, ltb, ◌<◌, get_or};
ghost use Rattle.table.specs.Place.{index_of};

// Of any row and column, and so with no invariant: whether a place has a slot is asked of those past the rows too
// (`Table::holds`), and a message may come with one. That it lies inside is asked by who reads a slot there, and no type of its
// own says it: such functions are public, and a type would ask more of their callers.
#[derive(Clone, Copy, Debug, PartialEq, Eq)]
pub struct Place {
    pub row: usize,
    pub col: usize,
}

impl Place {
    // Its index among the slots of all rows, 32 a row.
    pub fn index(self) -> usize
        requires row_bound { self.row < 7 }
        requires col_bound { self.col < 32 }
        ensures { result ≡ index_of self }
    {
        32 * self.row + self.col
    }

    // Whether rows of these lengths have a slot there; of 32 columns each at most.
    pub fn is_in(self, lens: [usize; 7]) -> bool
        ensures value { result ≡ (ltb self.col 32 && ltb self.col (get_or lens self.row 0)) }
        ensures inside { result ≡ true → (self.row < 7) × (self.col < 32) }
    {
        self.row < 7 && self.col < 32 && self.col < lens[self.row]
    }
}
