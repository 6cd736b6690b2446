// The table, 33,618 bytes.
ghost use Rattle.std.specs.Prelude.{◌≡◌, true, ◌+◌, ◌≤◌, length, drop};
ghost use Rattle.layout.specs.Numbers.{lay};
ghost use Rattle.image.specs.Tables.{image_width, slots_at, table_at, image_known, slots_bytes, table_bytes};

use super::rows::{config_at, keys_at, put_config, put_keys, put_rows, rows_at};
use slot_bytes::slot::{clear_slot, put_slot, slot_at, slot_known};
use slots::slot::Slot;
use std::array;
use table::table::Table;

// How many bytes an image has. Each function below asks for this length, and no type says it: C lends slices of any length, and
// docs/ENTRIES.md names these functions for them.
pub const WIDTH: usize = 33618;

// Whether every slot's bytes stand for something, those past a row's length too.
pub fn is_known(image: &[u8]) -> bool
    requires { length image.now ≡ image_width }
    ensures { result ≡ image_known image.now }
{
    (0..224).all(|i| slot_known(image, 1810 + 142 * i))
}

fn slots_at(s: &[u8], at: usize) -> [Slot; 224]
    requires { at + 31808 ≤ length s.now }
    ensures { result ≡ slots_at (drop at s.now) }
{
    array::from_fn(|i| slot_at(s, at + 142 * i))
}

fn put_slots(out: &mut [u8], at: usize, slots: &[Slot; 224])
    requires { at + 31808 ≤ length out.old }
    ensures { out.new ≡ lay out.old at (slots_bytes slots.now) }
{
    for (i, slot) in slots.iter().enumerate() {
        put_slot(out, at + 142 * i, *slot);
    }
}

// Out of line: compiled into a caller, its room on the stack would be held beside that of the attempt that the caller makes.
#[inline(never)]
pub fn table_at(image: &[u8]) -> Table
    requires { length image.now ≡ image_width }
    ensures { result ≡ table_at image.now }
{
    Table {
        config: config_at(image),
        slots: slots_at(image, 1810),
        lens: rows_at(image, 4),
        bars: rows_at(image, 11),
        keys: keys_at(image, 18),
    }
}

pub fn put_table(image: &mut [u8], table: Table)
    requires { length image.old ≡ image_width }
    ensures { image.new ≡ table_bytes table }
{
    put_config(image, table.config);
    put_rows(image, 4, table.lens);
    put_rows(image, 11, table.bars);
    put_keys(image, 18, table.keys);
    put_slots(image, 1810, &table.slots);
}

// The table written again as it is read, slot by slot: where a request has no key or value those bytes become 0.
pub fn clear(image: &mut [u8])
    requires image_len { length image.old ≡ image_width }
    requires image_value { image_known image.old ≡ true }
    ensures { image.new ≡ table_bytes (table_at image.old) }
{
    for i in 0..224 {
        clear_slot(image, 1810 + 142 * i);
    }
}
