// The trace program on files: for each argument the file's name, and what the trace in it prints.
#![tactic(auto)]

use playing::PATH_ROOM;
use std::env::FillError;
use std::io;
use std::rt::{Env, Files};

fn main(rt: HostRuntime) -> io::Result<()> {
    for i in 1..usize::MAX {
        let mut room = [0u8; PATH_ROOM];
        match rt.arg(i, &mut room) {
            Ok(length) => replay(&rt, &room[..length])?,
            Err(FillError::NotPresent) => break,
            Err(_) => eprintln!(rt; "trace: the name is too long")?,
        }
    }
    Ok(())
}

// The file of that name.
fn replay(rt: &(impl Files + Print + Eprint), name: &[u8]) -> io::Result<()> {
    let Some((path, mut file)) = playing::open(rt, "trace", name)? else {
        return Ok(());
    };
    println!(rt; "{path}")?;
    playing::play(rt, &mut file, path)
}
