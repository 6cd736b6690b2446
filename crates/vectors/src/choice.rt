// Cases of the recovery choice, of kind 3 by the Rust's counts and of kind 4 by the paper's: configuration, prepare, acks,
// votes, and then the number of the answer, sequence, set, batch.
ghost use Rattle.std.specs.Prelude.{◌≤◌, length};

use super::list::List;
use super::outcome::{Outcome, UNTOUCHED, agree};
use super::parts::Config;

// Of the C function for the rule.
pub(crate) fn case<F>(list: &mut List, choice: F) -> Option<Outcome>
where
    F: Fn(u64, u64, u64, u64, u64, u64, u64, &[u8], &[u8], &mut [u8]) -> u64,
    requires { F.IsAlwaysCallable choice }
{
    let Config {
        n,
        own,
        simple,
        sup,
    } = list.config()?;
    let row = list.any()?;
    let highest = list.any()?;
    let default = list.any()?;
    let mut acks = [0u8; 7];
    let mut votes = [0u8; 882];
    list.put_marks(&mut acks)?;
    let voted = list.number(7)?;
    for _ in 0..voted {
        put_vote(list, n, &mut votes)?;
    }
    let mut out = [UNTOUCHED; 124];
    let answers = choice(
        n, own, simple, sup, row, highest, default, &acks, &votes, &mut out,
    );
    let listed = list.any()?;
    let mut contents = [0u8; 124];
    list.put_word(&mut contents, 0)?;
    list.put_set(n, &mut contents, 8)?;
    list.put_batch(&mut contents, 15)?;
    Some(Outcome {
        answers,
        listed,
        agree: agree(listed, &out, &contents),
    })
}

// A replica, and its status, sequence, set and batch.
fn put_vote(list: &mut List, n: u64, votes: &mut [u8]) -> Option<()>
    requires { 882 ≤ length votes.old }
{
    let replica = list.put_mark(votes)?;
    list.put_byte(votes, 7 + replica)?;
    list.put_word(votes, 14 + 8 * replica)?;
    list.put_set(n, votes, 70 + 7 * replica)?;
    list.put_batch(votes, 119 + 109 * replica)
}
