// The recovery choice on the votes that a prepare has gathered, by the Rust's counts and by the paper's.
ghost use Rattle.std.specs.Prelude.{◌≡◌, ◌≤◌, length};
ghost use Rattle.choosing.specs.Recovery.{prepare_of, kinds_known, votes_known, choice_decided, choice_code, choice_bytes};

use base::config::Config;
use base::numbers::size;
use calls::calls::SHORT;
use deciding::answers::{answered, unknown};
use octets::known::each_below;
use octets::marks::marks_at;
use passed::sevens::{batches_at, sets_at, statuses_at, words_at};
use passed::slices::marks_known;
use recovering::recovery::{Prepare, Rule, Votes, choice};
use votes::answer::Decision;
use votes::contents::entries;

pub fn prepare(row: u64, highest: u64, default: u64) -> Prepare
    ensures { result ≡ prepare_of row highest default }
{
    Prepare {
        row: size(row),
        highest,
        default,
    }
}

// By either rule, on slices of any length. Beside the fast decision's, since slices and lengths are others.
pub fn answer(
    rule: Rule,
    config: Config,
    prepare: Prepare,
    acks: &[u8],
    votes: &[u8],
    out: &mut [u8],
) -> u64
    ensures result { result ≡ choice_code rule config prepare acks.now votes.now out.old }
    ensures bytes { out.new ≡ choice_bytes rule config prepare acks.now votes.now out.old }
{
    if acks.len() < 7 || votes.len() < 882 || out.len() < 124 {
        return SHORT;
    }
    answered(decided(rule, config, prepare, acks, votes), true, out)
}

// What is decided on slices that are long enough.
fn decided(rule: Rule, config: Config, prepare: Prepare, acks: &[u8], votes: &[u8]) -> Decision
    requires in_bounds { 7 ≤ length acks.now }
    requires in_bounds_2 { 882 ≤ length votes.now }
    ensures { result ≡ choice_decided rule config prepare acks.now votes.now }
{
    if !is_known(acks, votes) {
        return unknown();
    }
    let votes = Votes {
        voted: marks_at(votes, 0),
        statuses: statuses_at(votes, 7),
        entries: entries(
            words_at(votes, 14),
            sets_at(votes, 70),
            batches_at(votes, 119),
        ),
    };
    choice(rule, config, prepare, marks_at(acks, 0), votes)
}

// Whether every mark, status and kind has a meaning.
fn is_known(acks: &[u8], votes: &[u8]) -> bool
    requires in_bounds { 7 ≤ length acks.now }
    requires in_bounds_2 { 882 ≤ length votes.now }
    ensures { result ≡ votes_known acks.now votes.now }
{
    marks_known(acks) && marks_known(votes) && each_below(votes, 7, 7, 1, 5) && kinds_known(votes)
}

// The kinds of all requests, those past a batch's count too.
fn kinds_known(votes: &[u8]) -> bool
    requires { 882 ≤ length votes.now }
    ensures { result ≡ kinds_known votes.now }
{
    (0..7).all(|i| each_below(votes, 119 + 109 * i + 17, 4, 27, 3))
}
