// The first refusal of a decision, in the order of their numbers.
ghost use Rattle.std.specs.Prelude.{◌≡◌, ℕ, ◌<◌, Bool};
ghost use Rattle.base.specs.Refusals.{refused_number};
ghost use Rattle.votes.specs.Contents.{said_by};
ghost use Rattle.votes.specs.declared.contents.Contents.{Contents};
ghost use Rattle.refusing.specs.Refusal.{both_fit, parts_fit, refusal_of};

use base::config::Config;
use base::marks;
use base::refusals::{Refusal, SEQUENCE_LIMIT};
use votes::contents::Contents;

// Ok where nothing is to be refused. Whether every replica named is below N is the caller's to say. Marks and entries apart, as
// `refusal_of` takes them.
pub fn refusal(
    config: Config,
    named: bool,
    listed: [bool; 7],
    entries: [Contents; 7],
) -> Result<(), Refusal>
    ensures { refused_number result ≡ refusal_of config named listed entries }
{
    if !config.fits() {
        return Err(Refusal::OutsideBounds);
    }
    if !named {
        return Err(Refusal::NoReplica);
    }
    if !each(listed, entries, |entry| entry.deps.fits(config.n)) {
        return Err(Refusal::BadDependency);
    }
    if !each(listed, entries, |entry| entry.batch.fits()) {
        return Err(Refusal::BadBatch);
    }
    if !each(listed, entries, |entry| entry.seq <= SEQUENCE_LIMIT) {
        return Err(Refusal::OverLimit);
    }
    Ok(())
}

// No mark at n or more in either.
pub fn both_fit(n: usize, a: [bool; 7], b: [bool; 7]) -> bool
    ensures { result ≡ both_fit n a b }
{
    marks::fit(a, n) && marks::fit(b, n)
}

// Whether every entry listed passes the test.
fn each<F: Fn(Contents) -> bool>(listed: [bool; 7], entries: [Contents; 7], fits: F) -> bool
    requires { F.IsAlwaysCallable fits }
    ensures { (test : Contents → Bool) → ((r : ℕ) (b : _) → r < 7 → F.post fits (said_by entries r) b → b ≡ test (said_by entries r)) → result ≡ parts_fit test listed entries }
{
    for (r, entry) in entries.iter().enumerate() {
        if listed[r] && !fits(*entry) {
            return false;
        }
    }
    true
}
