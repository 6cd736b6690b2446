// Dependency sets, by value.
ghost use Rattle.std.specs.Prelude.{◌≡◌, ◌<◌};
ghost use Rattle.deps.specs.Sets.{dep_of, dep_fits, set_fits, union_of, raised_to, same_set};

// Per row 0 for nothing and c + 1 for the column c, and no Option: `dep_of` and the laws speak of this number, and the image that
// C holds has it. The greater number is the greater column, or the only one.
#[derive(Clone, Copy, Debug, PartialEq, Eq)]
pub struct DepSet {
    pub cols: [u8; 7],
}

impl DepSet {
    pub const EMPTY: DepSet = DepSet { cols: [0; 7] };

    // Within the bounds of n rows: no dependency at column 32 or more, none in row n or more.
    pub fn fits(self, n: usize) -> bool
        ensures { result ≡ set_fits n self }
    {
        self.cols
            .iter()
            .enumerate()
            .all(|(row, &number)| dep_fits(number, row, n))
    }

    // Per row the greater column, or the only one.
    pub fn union(self, other: DepSet) -> DepSet
        ensures { result ≡ union_of self other }
    {
        DepSet {
            cols: std::array::from_fn(|row| self.cols[row].max(other.cols[row])),
        }
    }

    // The row raised to at least the column; a row of 7 or more is none of the set's.
    pub fn raised(self, row: usize, col: usize) -> DepSet
        requires { col < 32 }
        ensures { result ≡ raised_to self row col }
    {
        let mut out = self;
        if row < 7 {
            out.cols[row] = out.cols[row].max((col + 1) as u8);
        }
        out
    }

    // Whether the two sets are equal: `==`, by the name that docs/ENTRIES.md has.
    pub fn same(self, other: DepSet) -> bool
        ensures { result ≡ same_set self other }
    {
        self == other
    }
}

// One row of a set: nothing, or a column below 32 in a row below n.
fn dep_fits(number: u8, row: usize, n: usize) -> bool
    ensures { result ≡ dep_fits n row (dep_of number) }
{
    number == 0 || row < n && number <= 32
}
