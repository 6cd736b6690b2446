// What a handler makes of a table, in the table's bytes.
ghost use Rattle.std.specs.Prelude.{◌≡◌, true, ◌<◌, length};
ghost use Rattle.changes.specs.Change.{Inside, changed_table};
ghost use Rattle.image.specs.Tables.{image_width, image_known, table_at, table_bytes};
ghost use Rattle.in_place.specs.Filled.{Filled};

use super::view::slot_start;
use changes::change::Extent;
use image::rows::{keys_at, put_keys, rows_at};
use image::tables::clear;
use layout::numbers::{byte, put_byte};
use slot_bytes::slot::put_slot;
use slots::slot::Slot;
use table::place::Place;

// The bytes of the table with the change at the place.
pub fn apply_at(image: &mut [u8], at: Place, slot: Slot, extent: Extent)
    requires image_len { length image.old ≡ image_width }
    requires image_value { image_known image.old ≡ true }
    requires inside { Inside extent at }
    ensures { image.new ≡ table_bytes (changed_table extent (table_at image.old) at slot) }
{
    let lens = rows_at(image, 4);
    let keys = keys_at(image, 18);
    clear(image);
    if !extent.has_nulls() {
        return;
    }
    fill_at(image, at, lens[at.row]);
    if !extent.has_slot() {
        return;
    }
    let start = slot_start(at.index());
    put_slot(image, start, slot);
    if !extent.has_keys() {
        return;
    }
    let refreshed = keys.refresh(at.row, at.col, slot.batch);
    put_keys(image, 18, refreshed);
}

// Null slots up to the column, where the row has len slots.
fn fill_at(image: &mut [u8], at: Place, len: usize)
    requires image_len { length image.old ≡ image_width }
    requires row_bound { at.row < 7 }
    requires col_bound { at.col < 32 }
    ensures { Filled at len image.old image.new }
{
    if at.col < len {
        return;
    }
    for col in len..at.col + 1 {
        put_slot(image, slot_start(32 * at.row + col), Slot::NULL);
    }
    put_byte(image, 4 + at.row, byte(at.col + 1));
}
