// The recovery choice on the votes that a prepare has gathered, by the Rust's counts and by the paper's.
ghost use Rattle.std.specs.Prelude.{◌≡◌};
ghost use Rattle.recovering.specs.declared.recovery.Rule.TheVariants.{Rust, Paper};
ghost use Rattle.passed.specs.Slices.{config_of};
ghost use Rattle.choosing.specs.Recovery.{prepare_of, choice_code, choice_bytes};

use choosing::recovery::{answer, prepare};
use passed::slices::config;
use recovering::recovery::Rule;

// n, own, simple, sup: the configuration. row: the slot's row; highest: the highest ballot that was voted at;
// default: the row's default ballot.
// acks: 7 marks, 1 byte each, 1 where the replica acked, else 0.
// votes: 882 bytes; for each of 7 replicas: at 0 a mark, 1 where it voted; at 7 its status, 1 byte, 0 null,
// 1 pre-accepting, 2 accepting, 3 committed, 4 executed; at 14 its sequence, 8 bytes, low byte first; at 70 its
// dependency set, 7 bytes, per row 0 for nothing or a column and one; at 119 its batch, 109 bytes: a count, 1 byte,
// then 4 requests of 27 bytes: client 8, id 8, kind 1 (0 other, 1 put, 2 get), key 2, value 8.
// out: 124 bytes: the sequence, 8; the dependency set, 7; the batch, 109.
// Longer slices are allowed: what is past these bytes is neither read nor written.
// Answers 0 where a slice is short; 1 where a mark, status or kind is none of these; a refusal's number; 104 wait;
// 105 committed, 106 accepting, 107 pre-accepting. out is written for 105, 106 and 107, and else stays as it was.
#[inline(never)]
pub fn nj_rust_choice(
    n: u64,
    own: u64,
    simple: u64,
    sup: u64,
    row: u64,
    highest: u64,
    default: u64,
    acks: &[u8],
    votes: &[u8],
    out: &mut [u8],
) -> u64
    ensures result { result ≡ choice_code Rust (config_of n own simple sup) (prepare_of row highest default) acks.now votes.now out.old }
    ensures bytes { out.new ≡ choice_bytes Rust (config_of n own simple sup) (prepare_of row highest default) acks.now votes.now out.old }
{
    let c = config(n, own, simple, sup);
    let p = prepare(row, highest, default);
    answer(Rule::Rust, c, p, acks, votes, out)
}

// The same by the paper's counts: two names that C links, for one choice under two rules.
#[inline(never)]
pub fn nj_paper_choice(
    n: u64,
    own: u64,
    simple: u64,
    sup: u64,
    row: u64,
    highest: u64,
    default: u64,
    acks: &[u8],
    votes: &[u8],
    out: &mut [u8],
) -> u64
    ensures result { result ≡ choice_code Paper (config_of n own simple sup) (prepare_of row highest default) acks.now votes.now out.old }
    ensures bytes { out.new ≡ choice_bytes Paper (config_of n own simple sup) (prepare_of row highest default) acks.now votes.now out.old }
{
    let c = config(n, own, simple, sup);
    let p = prepare(row, highest, default);
    answer(Rule::Paper, c, p, acks, votes, out)
}
