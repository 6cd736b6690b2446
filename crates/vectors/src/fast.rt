// Cases of the fast decision, of kind 2: configuration, avoided, replies, silent replicas, and then the number of the
// answer, sequence, set.
ghost use Rattle.std.specs.Prelude.{◌≤◌, length};

use super::list::List;
use super::outcome::{Outcome, UNTOUCHED, agree};
use host::fast::nj_fast_decision;

pub(crate) fn case(list: &mut List) -> Option<Outcome> {
    let config = list.config()?;
    let avoided = list.any()?;
    let mut replies = [0u8; 112];
    let mut silent = [0u8; 7];
    let replied = list.number(7)?;
    for _ in 0..replied {
        put_reply(list, config.n, &mut replies)?;
    }
    list.put_marks(&mut silent)?;
    let mut out = [UNTOUCHED; 15];
    let answers = nj_fast_decision(
        config.n,
        config.own,
        config.simple,
        config.sup,
        avoided,
        &replies,
        &silent,
        &mut out,
    );
    let listed = list.any()?;
    let mut contents = [0u8; 15];
    list.put_word(&mut contents, 0)?;
    list.put_set(config.n, &mut contents, 8)?;
    Some(Outcome {
        answers,
        listed,
        agree: agree(listed, &out, &contents),
    })
}

// A replica, and its sequence and set.
fn put_reply(list: &mut List, n: u64, replies: &mut [u8]) -> Option<()>
    requires { 112 ≤ length replies.old }
{
    let replica = list.put_mark(replies)?;
    list.put_word(replies, 7 + 8 * replica)?;
    list.put_set(n, replies, 63 + 7 * replica)
}
