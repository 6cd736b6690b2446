// A trace read from a file and run, and what came of it printed: reading, running and printing, and nothing is decided here.
#![tactic(auto)]

ghost use Rattle.std.specs.Prelude.{◌≡◌, IfOk, IfSome};
ghost use Rattle.std.specs.Io.{ReadsAtMost};

use std::io::Read;
use std::rt::Files;
use std::{fs, io};
use trace::run::{ROOM, run};

// No path of the system is longer.
pub const PATH_ROOM: usize = 4096;

// One byte more than the longest trace has, so that a longer one is seen to be longer.
const MOST: usize = 65537;

// The path that a name is, and its file; none where it cannot be opened, and then it is said why. Of a name that is no path it
// is said by who asks for it.
pub fn open<'a, R: Files + Eprint>(
    rt: &R,
    asker: &str,
    name: &'a [u8],
) -> io::Result<Option<(&'a str, R::File)>>
    ensures { IfOk result (λ opened. IfSome opened (λ it. it.0.now ≡ name.now)) }
{
    let Ok(path) = str::from_utf8(name) else {
        eprintln!(rt; "{asker}: the name is not UTF-8")?;
        return Ok(None);
    };
    match fs::open(rt, path) {
        Ok(file) => Ok(Some((path, file))),
        Err(error) => {
            eprintln!(rt; "{path}: {error}")?;
            Ok(None)
        }
    }
}

// Reads the file to its end, runs what it holds and prints the text. A file that cannot be read is said to be so by its name.
pub fn play<R: Read>(rt: &(impl Print + Eprint), file: &mut R, name: &str) -> io::Result<()> {
    let mut room = [0u8; MOST];
    let count = match read_all(file, &mut room) {
        Ok(count) => count,
        Err(error) => return eprintln!(rt; "{name}: {error}"),
    };
    let mut text = [0u8; ROOM];
    let end = run_to(&room[..count], &mut text);
    print(rt, &text, end)
}

// How much of the room is filled, once the file is read to its end. A file with no end is given up on as std gives up on one.
fn read_all<R: Read>(file: &mut R, room: &mut [u8; MOST]) -> io::Result<usize>
    ensures { ReadsAtMost result room.new }
{
    let count = read(file, room)?;
    read_to_end(file)?;
    Ok(count)
}

// How much of the room is filled, by the whole file or by its beginning. It is lent as an array, and filled as a slice, since the
// borrow checker lends no part of an array of N.
pub fn read<R: Read, const N: usize>(file: &mut R, room: &mut [u8; N]) -> io::Result<usize>
    ensures { ReadsAtMost result room.new }
{
    let room = &mut room[..];
    let mut count: usize = 0;
    // a while: how many reads it takes is not known beforehand
    while count < room.len() {
        let got = file.read(&mut room[count..])?;
        if got == 0 {
            break;
        }
        count += got;
    }
    Ok(count)
}

// The end of the text.
fn run_to(trace: &[u8], text: &mut [u8; ROOM]) -> usize {
    run(trace, text).end
}

// Reads what is left, since whoever writes it may wait for that. The turns are counted, so that the loop ends whatever the
// file gives.
fn read_to_end<R: Read>(file: &mut R) -> io::Result<()> {
    for _ in 0..u64::MAX {
        if read_some(file)? == 0 {
            return Ok(());
        }
    }
    Err(io::Error::from(io::ErrorKind::TimedOut))
}

fn read_some<R: Read>(file: &mut R) -> io::Result<usize> {
    let mut buffer = [0u8; 65536];
    file.read(&mut buffer)
}

// In two functions, since the check runs out of stack on a part of a list that it knows to be as long as ROOM.
fn print(rt: &impl Print, text: &[u8; ROOM], end: usize) -> io::Result<()> {
    print_first(rt, text, end)
}

fn print_first(rt: &impl Print, text: &[u8], end: usize) -> io::Result<()> {
    rt.write_all(text.get(..end).unwrap_or(&[]))
}
