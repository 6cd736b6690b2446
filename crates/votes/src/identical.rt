// The count of identical entries.
ghost use Rattle.std.specs.Prelude.{◌≡◌, ◌<◌};
ghost use Rattle.votes.specs.Identical.{group_of, identical_of};

use super::contents::Contents;

// The lowest replica listed whose entry has enough equals among those listed, and the greatest number of equals.
#[derive(Clone, Copy)]
pub struct Identical {
    pub first: Option<usize>,
    pub most: usize,
}

// How many of the entries left are equal to one, and which are left without them.
#[derive(Clone, Copy)]
pub struct Group {
    pub count: usize,
    pub left: [bool; 7],
}

// A mark for each entry, beside the entries, as `identical_of` takes them: it is taken away with the first entry that is equal, and not counted again. The marks that the loop
// tests change in it, so it goes over the replicas and not over the marks.
pub fn count_identical(entries: [Contents; 7], listed: [bool; 7], enough: usize) -> Identical
    ensures { result ≡ identical_of entries listed enough }
{
    let mut left = listed;
    let mut first = None;
    let mut most = 0;
    for r in 0..7 {
        if left[r] {
            let group = group_of(entries, left, r);
            if enough <= group.count {
                first = first.or(Some(r));
            }
            most = most.max(group.count);
            left = group.left;
        }
    }
    Identical { first, most }
}

// The entries left that are equal to that of a replica.
fn group_of(entries: [Contents; 7], mut left: [bool; 7], r: usize) -> Group
    requires { r < 7 }
    ensures { result ≡ group_of entries left r }
{
    let mut count = 0;
    for (q, entry) in entries.iter().enumerate() {
        if left[q] && entries[r].same(*entry) {
            left[q] = false;
            count += 1;
        }
    }
    Group { count, left }
}
