// What several events have alike.
ghost use Rattle.std.specs.Prelude.{◌≡◌, ◌≤◌};
ghost use Rattle.groups.specs.Told.{standing, Took};
ghost use Rattle.reading.specs.Fields.{place_from, message_from, set_from};
ghost use Rattle.reading.specs.Held.{held_dep, held_set};

use base::numbers::size;
use base::refusals::Refusal;
use deps::sets::DepSet;
use groups::cursor::Cursor;
use outcomes::message::Message;
use table::place::Place;

// Row, column.
#[tactic(auto, using(groups::proofs::ToldLaws::hands_on), unfolding(crate::specs::Fields::place_from))]
pub(crate) fn place(cursor: &mut Cursor) -> Result<Place, Refusal>
    ensures { let x = place_from cursor.old.trace.now (standing cursor.old.place) in Took cursor.old result cursor.new x.at x.cursor }
{
    let [row, col] = cursor.numbers::<2>()?;
    Ok(Place {
        row: size(row),
        col: size(col),
    })
}

// Peer, row, column, ballot.
#[tactic(auto, using(groups::proofs::ToldLaws::hands_on), unfolding(crate::specs::Fields::message_from))]
pub(crate) fn message(cursor: &mut Cursor) -> Result<Message, Refusal>
    ensures { let x = message_from cursor.old.trace.now (standing cursor.old.place) in Took cursor.old result cursor.new x.message x.cursor }
{
    let [peer, row, col, ballot] = cursor.numbers::<4>()?;
    Ok(Message {
        peer: size(peer),
        at: Place {
            row: size(row),
            col: size(col),
        },
        ballot,
    })
}

// n dependencies, each 0 or column + 1.
#[tactic(auto, using(groups::proofs::ToldLaws::place_refused, groups::proofs::ReadLaws::numbers_stay_stopped), unfolding(crate::specs::Fields::set_from))]
pub(crate) fn set(cursor: &mut Cursor, n: usize) -> Result<DepSet, Refusal>
    requires { n ≤ 7 }
    ensures { let x = set_from n cursor.old.trace.now (standing cursor.old.place) in Took cursor.old result cursor.new (held_set x.set) x.cursor }
{
    cursor.place?;
    let mut set = DepSet::EMPTY;
    for row in 0..n {
        let number = cursor.number()?;
        set.cols[row] = dependency(number);
    }
    Ok(set)
}

// One that a set's byte does not hold becomes 255 (`held_dep`), which is refused all the same.
fn dependency(number: u64) -> u8
    ensures { result ≡ held_dep number }
{
    u8::try_from(number).unwrap_or(u8::MAX)
}
