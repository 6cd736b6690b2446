// What is decided with the words of a replica, if there is one.
ghost use Rattle.std.specs.Prelude.{◌≡◌};
ghost use Rattle.votes.specs.Holder.{Inside, or_else};
ghost use Rattle.votes.specs.declared.answer.Decision.{Decision};
ghost use Rattle.votes.specs.declared.contents.Contents.{Contents};

use super::answer::Decision;
use super::contents::Contents;

// The decision on what the holder says; where there is no holder, the other decision. What all say is lent: a choice asks four
// times, and by value each would copy all seven.
pub fn decides<F: FnOnce(Contents) -> Decision>(
    holder: Option<usize>,
    entries: &[Contents; 7],
    decide: F,
    otherwise: Decision,
) -> Decision
    requires inside { Inside holder }
    requires callable { F.IsAlwaysCallable decide }
    ensures { (words : Contents → Decision) → ((c : Contents) (d : Decision) → F.post decide c d → d ≡ words c) → result ≡ or_else holder entries.now words otherwise }
{
    holder.map_or(otherwise, |r| decide(entries[r]))
}
