// The slots that an event of a run runs, beside what the list has.
use super::list::List;
use base::numbers::size;
use steps::event::Event;

// Of a Logged and an Attempt the list has what runs; the other events run nothing.
pub(crate) fn same_ran(list: &mut List, event: Event, ran: &[u8]) -> Option<bool> {
    match event {
        Event::Logged { .. } | Event::Attempt(_) => same_slots(list, ran),
        _ => Some(true),
    }
}

// How many slots ran, and then each. The order in which they ran is not the Rust's, so the list has them in rising order:
// they are all different, and where each is among as many entries, these are no others.
fn same_slots(list: &mut List, ran: &[u8]) -> Option<bool> {
    let listed = list.number(224)?;
    let mut agree = ran.len() == size(listed);
    let mut least: u64 = 0;
    for _ in 0..listed {
        let slot = list.number(223)?;
        agree = agree && least <= slot && ran.contains(&(slot as u8));
        least = slot + 1;
    }
    Some(agree)
}
