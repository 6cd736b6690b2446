// An empty table written to an image.
ghost use Rattle.std.specs.Prelude.{◌≡◌};
ghost use Rattle.messaging.specs.Messages.{open_code, open_image};

use base::numbers::size;
use bounds::open::open;
use calls::calls::{SHORT, is_refused};
use image::tables;
use image::tables::put_table;

// On an image of any length: a refusal leaves it as it was.
#[tactic(auto, unfolding(crate::specs::Messages::open_code, crate::specs::Messages::open_image))]
pub fn open_on(n: u64, own: u64, simple: u64, sup: u64, image: &mut [u8]) -> u64
    ensures result { result ≡ open_code n own simple sup image.old }
    ensures table { image.new ≡ open_image n own simple sup image.old }
{
    if image.len() != tables::WIDTH {
        return SHORT;
    }
    let opened = open(size(n), size(own), size(simple), size(sup));
    if !is_refused(opened.answer) {
        put_table(image, opened.table);
    }
    opened.answer.number()
}
