// Full tables, below the bars. All slots are Committed; of the last shape all but the slot asked for have run.
ghost use Rattle.std.specs.Prelude.{◌<◌};

use base::config::Config;
use base::status::Status;
use deps::batches::Batch;
use deps::sets::DepSet;
use slots::slot::Slot;
use std::fmt;
use table::table::Table;

#[derive(Clone, Copy, PartialEq, Eq)]
pub(crate) enum Shape {
    OneComponent,
    NoDependencies,
    Chain,
    OneSlot,
}

impl Shape {
    pub(crate) const ALL: [Shape; 4] = [
        Shape::OneComponent,
        Shape::NoDependencies,
        Shape::Chain,
        Shape::OneSlot,
    ];
}

// By the digit that names it; any other byte names a chain.
impl From<u8> for Shape {
    fn from(digit: u8) -> Shape {
        match digit {
            b'1' => Shape::OneComponent,
            b'2' => Shape::NoDependencies,
            b'4' => Shape::OneSlot,
            _ => Shape::Chain,
        }
    }
}

impl fmt::Display for Shape {
    fn fmt<W: fmt::Write>(&self, f: &mut fmt::Formatter<W>) -> fmt::Result {
        f.write_str(match self {
            Shape::OneComponent => "one component",
            Shape::NoDependencies => "no dependencies but those of the slot asked for",
            Shape::Chain => "a chain across the rows",
            Shape::OneSlot => "one slot over 223 that have run",
        })
    }
}

pub(crate) fn full(shape: Shape) -> Table {
    let config = Config {
        n: 7,
        own: 0,
        simple: 4,
        sup: 5,
    };
    let mut table = Table::empty(config);
    table.lens = [32; 7];
    table.bars = [32; 7];
    for (i, slot) in table.slots.iter_mut().enumerate() {
        *slot = made(shape, i);
    }
    table
}

// Slot i, with a sequence that is far from its place.
fn made(shape: Shape, i: usize) -> Slot
    requires { i < 224 }
{
    let seq = (i * 37 % 224) as u32;
    let slot = Slot::NULL.store(0, Status::Committed, seq, set(shape, i), Batch::NO_OP);
    if shape == Shape::OneSlot && i < 223 {
        slot.run()
    } else {
        slot
    }
}

// In one component every slot names the last of every row; with no dependencies the slot asked for alone does.
fn set(shape: Shape, i: usize) -> DepSet
    requires { i < 224 }
{
    match shape {
        Shape::OneComponent => DepSet { cols: [32; 7] },
        Shape::NoDependencies if i < 223 => DepSet::EMPTY,
        Shape::NoDependencies => DepSet { cols: [32; 7] },
        Shape::Chain | Shape::OneSlot => link(i),
    }
}

// A chain: column after column, and in each row after row.
fn link(i: usize) -> DepSet
    requires { i < 224 }
{
    let mut set = DepSet::EMPTY;
    let col = (i % 32) as u8;
    if 31 < i {
        set.cols[i / 32 - 1] = col + 1;
    } else {
        set.cols[6] = col;
    }
    set
}
