// Cases of the key columns, of kind 5: the population, what was stored in slots, a batch, and then the number of the answer
// and the set that the batch waits for.
use super::list::List;
use super::outcome::{Outcome, agree};
use base::numbers::size;
use deciding::codes::DONE;
use keys::columns::Keys;

// No table has more slots.
const SLOTS: u64 = 224;

pub(crate) fn case(list: &mut List) -> Option<Outcome> {
    let n = list.number(7)?;
    let stores = list.number(SLOTS)?;
    let mut keys = Keys::EMPTY;
    for _ in 0..stores {
        let row = size(list.number(6)?);
        let col = size(list.number(31)?);
        let batch = list.batch()?;
        keys = keys.refresh(row, col, batch);
    }
    let set = keys.identify(list.batch()?);
    let listed = list.any()?;
    let waits_for = list.set(n)?;
    Some(Outcome {
        answers: DONE, // neither refresh nor identify has a C function, and so a number: what they do is done
        listed,
        agree: agree(listed, &set.cols, &waits_for.cols),
    })
}
