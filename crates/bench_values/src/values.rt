// One event on the table of an image, again and again, with the table by value: for bench/run to time.
ghost use Rattle.std.specs.Prelude.{◌≡◌};
ghost use Rattle.steps.specs.Calls.{call_of};
ghost use Rattle.bench_values.specs.Values.{number_after, values_code};

use base::refusals::Refusal;
use bounds::bounds::fits;
use calls::calls::SHORT;
use groups::cursor::Cursor;
use image::tables;
use image::tables::{is_known, table_at};
use reading::events::event;
use steps::event::Event;
use steps::step::step;
use table::table::Table;

// image: 33,618 bytes, a table. trace: an event in the bytes of a trace.
// Answers 0 where the image has another length; 1 where a byte of it stands for nothing, or the table is outside the bounds;
// 9 or 10 where no event is read; else the number of what the event is answered the last time, and 0 with no time.
#[inline(never)]
pub fn njb_step(image: &[u8], trace: &[u8], times: u64) -> u64
    ensures { result ≡ values_code image.now trace.now times }
{
    if image.len() != tables::WIDTH {
        return SHORT;
    }
    if !is_known(image) {
        return Refusal::OutsideBounds.number();
    }
    let table = table_at(image);
    if !fits(&table) {
        return Refusal::OutsideBounds.number();
    }
    let mut cursor = Cursor::on(trace, 0);
    match event(&mut cursor, table.config.n) {
        Ok(asked) => again(table, asked, times),
        Err(refusal) => refusal.number(),
    }
}

// Each time on the table as it was. The step is called at two places, so that the compiler leaves it a function of its own
// and what a step does is done each time.
fn again(table: Table, asked: Event, times: u64) -> u64
    ensures { result ≡ number_after times table (call_of asked) }
{
    if times == 0 {
        return 0;
    }
    let mut order = [0u8; 224];
    let mut number = step(table, asked, &mut order).outcome.answer.number();
    for _ in 1..times {
        number = step(table, asked, &mut order).outcome.answer.number();
    }
    number
}
