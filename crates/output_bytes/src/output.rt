// What a call puts out, 291 bytes: how many records, and two of 145.
ghost use Rattle.std.specs.Prelude.{◌≡◌, ◌+◌, ◌≤◌, length};
ghost use Rattle.layout.specs.Numbers.{lay};
ghost use Rattle.output_bytes.specs.Output.{output_width, what_byte, peer_of, asked_of, tag_bytes, record_bytes, output_bytes};

use base::status::Status;
use layout::numbers::{byte, put_byte, put_word};
use outcomes::output::{Output, Record, What};
use slot_bytes::contents::put_contents;
use table::place::Place;

// How many bytes an output takes.
pub const WIDTH: usize = 291;

// This and the next two are fields of the layout that C reads (docs/IMAGE.md): 0 where what is put out has none.
fn what_byte(what: What) -> u8
    ensures { result ≡ what_byte what }
{
    match what {
        What::Nothing => 0,
        What::Log => 1,
        What::CommitNotice => 2,
        What::PreAcceptReply { .. } => 3,
        What::AcceptReply { .. } => 4,
        What::ExpPrepareReply { .. } => 5,
        What::NoteToSelf => 6,
    }
}

// The peer that a reply goes to.
fn peer_of(what: What) -> usize
    ensures { result ≡ peer_of what }
{
    match what {
        What::PreAcceptReply { to } | What::AcceptReply { to } | What::ExpPrepareReply { to, .. } =>
            to,
        What::Nothing | What::Log | What::CommitNotice | What::NoteToSelf => 0,
    }
}

// The ballot that an ExpPrepare asked with.
fn asked_of(what: What) -> u64
    ensures { result ≡ asked_of what }
{
    match what {
        What::ExpPrepareReply { asked, .. } => asked,
        _ => 0,
    }
}

fn put_tags(out: &mut [u8], at: usize, what: What, place: Place, status: Status)
    requires { at + 5 ≤ length out.old }
    ensures { out.new ≡ lay out.old at (tag_bytes what place status) }
{
    put_byte(out, at, what_byte(what));
    put_byte(out, at + 1, byte(peer_of(what)));
    put_byte(out, at + 2, byte(place.row));
    put_byte(out, at + 3, byte(place.col));
    put_byte(out, at + 4, status.rank());
}

fn put_record(out: &mut [u8], at: usize, entry: Record)
    requires { at + 145 ≤ length out.old }
    ensures { out.new ≡ lay out.old at (record_bytes entry) }
{
    put_tags(out, at, entry.what, entry.at, entry.status);
    put_word(out, at + 5, asked_of(entry.what));
    put_word(out, at + 13, entry.ballot);
    put_contents(out, at + 21, u64::from(entry.seq), entry.deps, entry.batch);
}

pub fn put_output(out: &mut [u8], output: Output)
    requires { output_width ≤ length out.old }
    ensures { out.new ≡ lay out.old 0 (output_bytes output) }
{
    let [first, second] = output.records;
    put_byte(out, 0, byte(output.count));
    put_record(out, 1, first);
    put_record(out, 146, second);
}
