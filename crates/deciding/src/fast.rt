// The fast decision on the replies to a PreAccept.
ghost use Rattle.std.specs.Prelude.{◌≡◌, ◌≤◌, length};
ghost use Rattle.deciding.specs.Fast.{fast_known, fast_decided, fast_code, fast_bytes};

use super::answers::{answered, unknown};
use base::config::Config;
use calls::calls::SHORT;
use decisions::fast;
use octets::marks::marks_at;
use passed::sevens::{sets_at, words_at};
use passed::slices::marks_known;
use votes::answer::Decision;

// On slices of any length. Beside `choosing::recovery::answer`: what both share is `answered`, and their slices differ.
pub fn answer(config: Config, avoided: u64, replies: &[u8], silent: &[u8], out: &mut [u8]) -> u64
    ensures result { result ≡ fast_code config avoided replies.now silent.now out.old }
    ensures bytes { out.new ≡ fast_bytes config avoided replies.now silent.now out.old }
{
    if replies.len() < 112 || silent.len() < 7 || out.len() < 15 {
        return SHORT;
    }
    answered(decided(config, avoided, replies, silent), false, out)
}

// What is decided on slices that are long enough.
fn decided(config: Config, avoided: u64, replies: &[u8], silent: &[u8]) -> Decision
    requires in_bounds { 112 ≤ length replies.now }
    requires in_bounds_2 { 7 ≤ length silent.now }
    ensures { result ≡ fast_decided config avoided replies.now silent.now }
{
    if !is_known(avoided, replies, silent) {
        return unknown();
    }
    fast::decision(
        config,
        avoided != 0,
        marks_at(replies, 0),
        words_at(replies, 7),
        sets_at(replies, 63),
        marks_at(silent, 0),
    )
}

// Whether every mark is 0 or 1.
fn is_known(avoided: u64, replies: &[u8], silent: &[u8]) -> bool
    requires in_bounds { 7 ≤ length replies.now }
    requires in_bounds_2 { 7 ≤ length silent.now }
    ensures { result ≡ fast_known avoided replies.now silent.now }
{
    avoided < 2 && marks_known(replies) && marks_known(silent)
}
