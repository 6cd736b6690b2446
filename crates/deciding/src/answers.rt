// What is decided, written to the host's slice.
ghost use Rattle.std.specs.Prelude.{◌≡◌, ◌≤◌, length};
ghost use Rattle.votes.specs.declared.answer.Decision.TheVariants.{Refused};
ghost use Rattle.layout.specs.Numbers.{lay};
ghost use Rattle.base.specs.Refusals.{outside_bounds};
ghost use Rattle.deciding.specs.Codes.{code_of};
ghost use Rattle.deciding.specs.Answers.{contents_width, contents_bytes, out_of};

use super::codes::code;
use base::refusals::Refusal;
use layout::batches::put_batch;
use layout::numbers::put_word;
use octets::sets::put_set;
use votes::answer::Decision;
use votes::contents::Contents;

// The answer to a byte that stands for nothing.
pub fn unknown() -> Decision
    ensures { result ≡ Refused outside_bounds }
{
    Decision::Refused {
        number: Refusal::OutsideBounds.number(),
    }
}

// Sequence and dependency set; the batch too where the whole contents are wanted: a flag, of which `contents_width` and
// `contents_bytes` speak.
fn put_contents(out: &mut [u8], whole: bool, contents: Contents)
    requires { contents_width whole ≤ length out.old }
    ensures { out.new ≡ lay out.old 0 (contents_bytes whole contents) }
{
    put_word(out, 0, contents.seq);
    put_set(out, 8, contents.deps);
    if whole {
        put_batch(out, 15, contents.batch);
    }
}

// The decision's number, with its contents in out's front: a wait or a refusal has none, and leaves out as it was.
#[tactic(auto, unfolding(crate::specs::Answers::out_of))]
pub fn answered(decision: Decision, whole: bool, out: &mut [u8]) -> u64
    requires { contents_width whole ≤ length out.old }
    ensures result { result ≡ code_of decision }
    ensures bytes { out.new ≡ out_of whole decision out.old }
{
    if let Some(contents) = decision.contents() {
        put_contents(out, whole, contents);
    }
    code(decision)
}
