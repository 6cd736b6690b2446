// Requests and batches.
ghost use Rattle.std.specs.Prelude.{◌≡◌};
ghost use Rattle.groups.specs.Told.{standing, Took};
ghost use Rattle.reading.specs.Batches.{kind_from, request_from, batch_from};
ghost use Rattle.reading.specs.Held.{held_key, held_kind, held_request, held_batch};

use base::refusals::Refusal;
use deps::batches::{Batch, Kind, Request};
use groups::cursor::Cursor;

// A count of at most 4, and as many requests.
#[tactic(auto, using(groups::proofs::ToldLaws::hands_on, crate::proofs::KeepLaws::stopped), unfolding(crate::specs::Batches::batch_from))]
pub(crate) fn batch(cursor: &mut Cursor) -> Result<Batch, Refusal>
    ensures { let x = batch_from cursor.old.trace.now (standing cursor.old.place) in Took cursor.old result cursor.new (held_batch x.batch) x.cursor }
{
    let count = cursor.number_within(0, 4)?;
    let mut batch = Batch::NO_OP;
    for _ in 0..count {
        let request = request(cursor)?;
        batch = batch.with(request);
    }
    Ok(batch)
}

// Client, id, kind.
#[tactic(auto, using(groups::proofs::ToldLaws::hands_on, crate::proofs::KeepLaws::stopped), unfolding(crate::specs::Batches::request_from))]
fn request(cursor: &mut Cursor) -> Result<Request, Refusal>
    ensures { let x = request_from cursor.old.trace.now (standing cursor.old.place) in Took cursor.old result cursor.new (held_request x.request) x.cursor }
{
    let [client, id] = cursor.numbers::<2>()?;
    let kind = kind(cursor)?;
    Ok(Request { client, id, kind })
}

// 0 other, 1 put with key and value, 2 get with key.
#[tactic(auto, using(groups::proofs::ToldLaws::hands_on, crate::proofs::KeepLaws::stopped, groups::proofs::CursorLaws::within_most), unfolding(crate::specs::Batches::kind_from))]
fn kind(cursor: &mut Cursor) -> Result<Kind, Refusal>
    ensures { let x = kind_from cursor.old.trace.now (standing cursor.old.place) in Took cursor.old result cursor.new (held_kind x.kind) x.cursor }
{
    match cursor.number_within(0, 2)? {
        0 => Ok(Kind::Other),
        1 => {
            let [number, value] = cursor.numbers::<2>()?;
            Ok(Kind::Put {
                key: key(number),
                value,
            })
        }
        _ => {
            let [number] = cursor.numbers::<1>()?;
            Ok(Kind::Get { key: key(number) })
        }
    }
}

// One that a request does not hold becomes 65,535 (`held_key`), which is refused all the same.
fn key(number: u64) -> u16
    ensures { result ≡ held_key number }
{
    u16::try_from(number).unwrap_or(u16::MAX)
}
