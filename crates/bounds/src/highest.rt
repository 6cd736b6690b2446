// The highest sequence of a set.
ghost use Rattle.std.specs.Prelude.{◌≡◌};
ghost use Rattle.bounds.specs.Highest.{is_held, highest_of};

use super::shown::Shown;
use deps::sets::DepSet;

// The greatest over the set's slots that the table holds, 0 if none (`highest_of`).
pub fn highest<S: Shown>(shown: &S, set: DepSet) -> u32
    ensures { result ≡ highest_of (S.table shown.now) set }
{
    let lens = shown.lens();
    let mut highest: u32 = 0;
    for row in 0..7 {
        let number = usize::from(set.cols[row]);
        if is_held(number, lens[row]) {
            highest = highest.max(shown.slot_no(32 * row + (number - 1)).seq);
        }
    }
    highest
}

// Whether a row of this length holds the slot that a set's number names.
#[tactic(auto, unfolding(crate::specs::Highest::is_held))]
pub fn is_held(number: usize, len: usize) -> bool
    ensures { result ≡ is_held number len }
{
    (1..=32).contains(&number) && number <= len
}
