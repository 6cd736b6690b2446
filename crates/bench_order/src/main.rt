// Attempts on full tables, 7 rows of 32 slots, in four shapes.
//
// With no argument each shape is tried once, and its answer, how many slots run and which run first and last are printed.
// Else the first argument is the number of a shape, and it is tried once for each argument: two runs that differ by an
// argument differ by an attempt, and bench/order counts so what one costs.
#![tactic(auto)]

mod shapes; // shapes.rt: the tables
mod text; // text.rt: what is printed

use attempts::attempt::attempt;
use shapes::Shape;
use std::env::FillError;
use std::io;
use std::rt::Env;
use table::place::Place;
use table::table::Table;

fn main(rt: HostRuntime) -> io::Result<()> {
    let count = arg_count(&rt);
    if 1 < count {
        return repeat(&rt, shapes::full(Shape::from(digit(&rt))), count - 1);
    }
    for shape in &Shape::ALL {
        show(&rt, *shape)?;
    }
    Ok(())
}

// How many arguments there are, the program's own name among them: the number of the first that is missing. Asked into one
// byte, so that an argument costs next to nothing beside an attempt.
fn arg_count(rt: &impl Env) -> usize {
    let mut byte = [0u8; 1];
    for i in 0..usize::MAX {
        if let Err(FillError::NotPresent) = rt.arg(i, &mut byte) {
            return i;
        }
    }
    usize::MAX
}

// The slot asked for: the last of the last row.
const ASKED: Place = Place { row: 6, col: 31 };

fn show(rt: &impl Print, shape: Shape) -> io::Result<()> {
    let mut order = [255u8; 224];
    let tried = attempt(shapes::full(shape), ASKED, &mut order);
    print!(rt; "{shape}: {}", tried.answer)?;
    text::ran(rt, order.get(..tried.ran).unwrap_or(&[]))
}

// The digit that the first argument begins with.
fn digit(rt: &impl Env) -> u8 {
    let mut word = [0u8; 4096];
    match rt.arg(1, &mut word) {
        Ok(length) if 0 < length => word[0],
        _ => 0,
    }
}

fn repeat(rt: &impl Print, table: Table, times: usize) -> io::Result<()> {
    let mut order = [255u8; 224];
    let mut ran: usize = 0;
    for _ in 0..times {
        ran = attempt(table, ASKED, &mut order).ran;
    }
    text::ran(rt, order.get(..ran).unwrap_or(&[]))
}
