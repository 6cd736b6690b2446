// The table after a run, beside what the list has.
use super::contents::Contents;
use super::list::List;
use base::numbers::size;
use deps::sets::DepSet;
use keys::columns::Keys;
use slots::slot::Slot;
use table::table::Table;

// The first n rows and the key columns are in the list; the other rows are to have nothing.
pub(crate) fn same_table(list: &mut List, n: u64, table: &Table) -> Option<bool> {
    let rows = size(n);
    let mut agree = has_nothing_from(rows, table);
    for (row, slots) in table.slots.chunks(32).enumerate().take(rows) {
        let same = same_row(list, n, table.lens[row], table.bars[row], slots)?;
        agree = agree && same;
    }
    let keys = list.keys(n)?;
    Some(agree && table.keys == keys)
}

fn has_nothing_from(first: usize, table: &Table) -> bool {
    let lens = table.lens.iter().skip(first);
    let bars = table.bars.iter().skip(first);
    lens.chain(bars).all(|&number| number == 0)
}

// Its length and its bar, and then each slot.
fn same_row(list: &mut List, n: u64, len: usize, bar: usize, slots: &[Slot]) -> Option<bool> {
    let listed = size(list.number(32)?);
    let listed_bar = size(list.any()?);
    let mut agree = len == listed && bar == listed_bar;
    for slot in slots.iter().take(listed) {
        let same = same_slot(list, n, *slot)?;
        agree = agree && same;
    }
    Some(agree)
}

// Its contents, its source, whether it is led, its marks.
fn same_slot(list: &mut List, n: u64, slot: Slot) -> Option<bool> {
    let contents = list.contents(n)?;
    let source = list.any()?;
    let led = list.number(1)? == 1;
    let marks = list.any()?;
    Some(
        Contents::from(slot) == contents
            && u64::from(slot.source) == source
            && slot.led == led
            && same_marks(slot, marks),
    )
}

// Of a slot that is not led the marks say nothing, and the list has 0. Else they are bits, of replica 0 the lowest.
fn same_marks(slot: Slot, listed: u64) -> bool {
    if !slot.led {
        return listed == 0;
    }
    let mut bits = listed;
    for mark in slot.marks {
        if mark != (bits % 2 == 1) {
            return false;
        }
        bits /= 2;
    }
    bits == 0
}

impl List<'_> {
    // How many keys have columns, and then each with its set; the others have none.
    fn keys(&mut self, n: u64) -> Option<Keys> {
        let listed = self.number(256)?;
        let mut cols = Keys::EMPTY.cols;
        for _ in 0..listed {
            let key = self.byte()?;
            let DepSet { cols: own } = self.set(n)?;
            cols[usize::from(key)] = own;
        }
        Some(Keys { cols })
    }
}
