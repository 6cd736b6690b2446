// A table's image, looked at where it stands.
#![tactic(auto, unfolding(image::specs::Tables::table_at))]

ghost use Rattle.std.specs.Prelude.{◌≡◌, ◌+◌, ◌*◌, ◌<◌, length};
ghost use Rattle.changes.specs.View.{view_of};
ghost use Rattle.image.specs.Tables.{image_width, table_at};

use base::config::Config;
use bounds::shown::Shown;
use changes::view::{View, look};
use deps::batches::Batch;
use image::rows::{config_at, keys_at, rows_at};
use keys::columns::Keys;
use slot_bytes::slot::{slot_at, slot_fits};
use slots::slot::Slot;
use table::place::Place;

// Only what is asked for is read; the bytes of the other slots are not.
#[derive(Clone, Copy)]
struct Image<'a> {
    bytes: &'a [u8],
    ghost wide: { length bytes.now ≡ image_width },
}

impl Shown for Image<'_> {
    ghost table = { λ i. table_at i.bytes.now };

    fn config(&self) -> Config {
        config_at(self.bytes)
    }

    fn lens(&self) -> [usize; 7] {
        rows_at(self.bytes, 4)
    }

    fn bars(&self) -> [usize; 7] {
        rows_at(self.bytes, 11)
    }

    fn keys(&self) -> Keys {
        keys_at(self.bytes, 18)
    }

    #[tactic(auto, using(crate::proofs::ViewLaws::slot_no_at))]
    fn slot_no(&self, i: usize) -> Slot {
        slot_at(self.bytes, slot_start(i))
    }

    #[tactic(auto, using(crate::proofs::ViewLaws::slot_no_at))]
    fn slot_fits(&self, i: usize, n: usize) -> bool {
        slot_fits(self.bytes, slot_start(i), n)
    }
}

// Where the bytes of the slot that stands at 32 * row + column begin.
pub(crate) fn slot_start(i: usize) -> usize
    requires { i < 224 }
    ensures { result ≡ 1810 + 142 * i }
{
    1810 + 142 * i
}

// For a message that is to the place and has the batch.
pub fn look_at(image: &[u8], at: Place, batch: Batch) -> View
    requires { length image.now ≡ image_width }
    ensures { result ≡ view_of (table_at image.now) at batch }
{
    look(&Image { bytes: image }, at, batch)
}
