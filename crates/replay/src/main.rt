// The trace program: runs the trace on standard input, raw bytes, and prints for each event its number, its answer and the
// slots run, and then the bars.
#![tactic(auto)]

use std::io;

fn main(rt: HostRuntime) -> io::Result<()> {
    playing::play(&rt, &mut rt.stdin(), "standard input")
}
