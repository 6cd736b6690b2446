// Contents, 124 bytes: sequence, dependency set, batch.
ghost use Rattle.std.specs.Prelude.{◌≡◌, ◌+◌, ◌≤◌, length, drop};
ghost use Rattle.layout.specs.Numbers.{lay};
ghost use Rattle.slot_bytes.specs.Contents.{contents_bytes, kinds_known};

use deps::batches::Batch;
use deps::sets::DepSet;
use layout::batches::put_batch;
use layout::numbers::put_word;
use octets::known::each_below;
use octets::sets::put_set;

pub fn put_contents(out: &mut [u8], at: usize, seq: u64, deps: DepSet, batch: Batch)
    requires { at + 124 ≤ length out.old }
    ensures { out.new ≡ lay out.old at (contents_bytes seq deps batch) }
{
    put_word(out, at, seq);
    put_set(out, at + 8, deps);
    put_batch(out, at + 15, batch);
}

// Whether the kinds of all four requests stand for something, those past the batch's count too.
pub fn kinds_known(s: &[u8], at: usize) -> bool
    requires { at + 124 ≤ length s.now }
    ensures { result ≡ kinds_known (drop at s.now) }
{
    each_below(s, at + 32, 4, 27, 3)
}
