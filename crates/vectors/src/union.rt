// Cases of the union, of kind 1, with sets of seven rows: a set, a set, the number of the answer, the union.
use super::list::List;
use super::outcome::{Outcome, UNTOUCHED, agree};
use host::union::nj_union;

pub(crate) fn case(list: &mut List) -> Option<Outcome> {
    let a = list.set(7)?;
    let b = list.set(7)?;
    let listed = list.any()?;
    let union = list.set(7)?;
    let mut out = [UNTOUCHED; 7];
    let answers = nj_union(&a.cols, &b.cols, &mut out);
    Some(Outcome {
        answers,
        listed,
        agree: agree(listed, &out, &union.cols),
    })
}
