// Marks by replica: who has replied, acked, fallen silent.
ghost use Rattle.std.specs.Prelude.{◌≡◌};
ghost use Rattle.base.specs.Marks.{count_of, marks_fit};

// How many replicas are marked.
pub fn count(marks: [bool; 7]) -> usize
    ensures { result ≡ count_of marks }
{
    marks.iter().filter(|&&mark| mark).count()
}

// No replica at n or more is marked.
pub fn fit(marks: [bool; 7], n: usize) -> bool
    ensures { result ≡ marks_fit n marks }
{
    marks.iter().skip(n).all(|&mark| !mark)
}
