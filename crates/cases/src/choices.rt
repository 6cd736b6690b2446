// Cases of the decisions: N 3, own 0, simple 2, super 3 unless said.
use super::sets;
use super::text::Decided;
use base::config::Config;
use base::status::Status;
use decisions::fast;
use deps::batches::Batch;
use recovering::recovery;
use recovering::recovery::{Prepare, Rule, Votes};
use std::io;
use votes::contents;

const THREE: Config = Config {
    n: 3,
    own: 0,
    simple: 2,
    sup: 3,
};

// The first three or four replicas; the rest are nobody.
fn marks(a: bool, b: bool, c: bool, d: bool) -> [bool; 7] {
    [a, b, c, d, false, false, false]
}

fn numbers(a: u64, b: u64, c: u64, d: u64) -> [u64; 7] {
    [a, b, c, d, 0, 0, 0]
}

// Rows 0 to 2 as numbers: 0 for nothing, column + 1.
fn rows(a: u8, b: u8, c: u8) -> [u8; 7] {
    [a, b, c, 0, 0, 0, 0]
}

const NONE: [u8; 7] = [0; 7];

fn columns(a: [u8; 7], b: [u8; 7], c: [u8; 7], d: [u8; 7]) -> [[u8; 7]; 7] {
    [a, b, c, d, NONE, NONE, NONE]
}

// What the fast decision is asked with.
#[derive(Clone, Copy)]
struct Fast<'a> {
    what: &'a str,
    config: Config,
    avoided: bool,
    replied: [bool; 7],
    seqs: [u64; 7],
    deps: [[u8; 7]; 7],
    silent: [bool; 7],
}

impl Fast<'_> {
    fn show(&self, rt: &impl Print) -> io::Result<()> {
        let decision = fast::decision(
            self.config,
            self.avoided,
            self.replied,
            self.seqs,
            self.deps,
            self.silent,
        );
        println!(rt; "{}: {}", self.what, Decided(decision))
    }
}

pub(crate) fn fast_decisions(rt: &impl Print) -> io::Result<()> {
    let two = Fast {
        what: "0, 1 say (4,[_,_,_])",
        config: THREE,
        avoided: false,
        replied: marks(true, true, false, false),
        seqs: numbers(4, 4, 4, 0),
        deps: [NONE; 7],
        silent: [false; 7],
    };
    let all = marks(true, true, true, false);
    let x = rows(2, 0, 0);
    let y = rows(0, 3, 0);
    let cases = [
        two,
        Fast {
            what: "0, 1 say (4,[_,_,_]), 2 silent",
            silent: marks(false, false, true, false),
            ..two
        },
        Fast {
            what: "0, 1, 2 say (4,[_,_,_])",
            replied: all,
            ..two
        },
        Fast {
            what: "0 says (4,[1,_,_]), 1 says (5,[_,2,_])",
            seqs: numbers(4, 5, 0, 0),
            deps: columns(x, y, NONE, NONE),
            ..two
        },
        Fast {
            what: "N 4, super 2: 0, 3 say (4,[1,_,_]), 1, 2 say (5,[_,2,_])",
            config: Config {
                n: 4,
                own: 0,
                simple: 2,
                sup: 2,
            },
            replied: marks(true, true, true, true),
            seqs: numbers(4, 5, 5, 4),
            deps: columns(x, y, y, x),
            ..two
        },
        Fast {
            what: "0, 1, 2 say (4,[_,_,_]), fast path avoided",
            avoided: true,
            replied: all,
            ..two
        },
        Fast {
            what: "0 says (4,[_,_,_])",
            replied: marks(true, false, false, false),
            ..two
        },
    ];
    for case in &cases {
        case.show(rt)?;
    }
    Ok(())
}

// Each is refused for the first reason in the order of the numbers.
pub(crate) fn refusals(rt: &impl Print) -> io::Result<()> {
    let four = Fast {
        what: "a reply of 3, column 32, sequence 2^32",
        config: THREE,
        avoided: false,
        replied: marks(true, true, false, true),
        seqs: numbers(4294967296, 0, 0, 0),
        deps: columns(rows(33, 0, 0), NONE, NONE, NONE),
        silent: [false; 7],
    };
    let two = Fast {
        what: "column 32, sequence 2^32",
        replied: marks(true, true, false, false),
        ..four
    };
    let cases = [
        Fast {
            what: "super 4 of 3, a reply of 3, column 32, sequence 2^32",
            config: Config { sup: 4, ..THREE },
            ..four
        },
        four,
        two,
        Fast {
            what: "sequence 2^32",
            deps: [NONE; 7],
            ..two
        },
        Fast {
            what: "sequence 2^32 of a replica that has not replied",
            replied: marks(false, true, true, false),
            deps: [NONE; 7],
            ..four
        },
    ];
    for case in &cases {
        case.show(rt)?;
    }
    Ok(())
}

// Votes on row 0 by 1 and 2, who have acked, at the default ballot.
pub(crate) fn recoveries(rt: &impl Print) -> io::Result<()> {
    recover(
        rt,
        "1, 2 PreAccepting (4,[1,_,_],put 5)",
        Status::PreAccepting,
        Status::PreAccepting,
        numbers(0, 4, 4, 0),
    )?;
    recover(
        rt,
        "1 PreAccepting (4,[1,_,_],put 5), 2 Null",
        Status::PreAccepting,
        Status::Null,
        numbers(0, 4, 0, 0),
    )?;
    recover(
        rt,
        "1 Committed (4,[1,_,_],put 5), 2 Committed (6,[1,_,_],put 5)",
        Status::Committed,
        Status::Committed,
        numbers(0, 4, 6, 0),
    )?;
    recover(
        rt,
        "1, 2 Null",
        Status::Null,
        Status::Null,
        numbers(0, 0, 0, 0),
    )
}

fn recover(
    rt: &impl Print,
    what: &str,
    one: Status,
    two: Status,
    seqs: [u64; 7],
) -> io::Result<()> {
    let prepare = Prepare {
        row: 0,
        highest: 7,
        default: 7,
    };
    let acks = marks(false, true, true, false);
    let mut statuses = [Status::Null; 7];
    statuses[1] = one;
    statuses[2] = two;
    let voted = rows(2, 0, 0);
    let deps = columns(voted, voted, voted, NONE);
    let batches = [Batch::of(sets::put(5)); 7];
    let votes = Votes {
        voted: acks,
        statuses,
        entries: contents::entries(seqs, deps, batches),
    };
    let rust = recovery::choice(Rule::Rust, THREE, prepare, acks, votes);
    let paper = recovery::choice(Rule::Paper, THREE, prepare, acks, votes);
    println!(rt;
        "{what}: the Rust's {}, the paper's {}",
        Decided(rust),
        Decided(paper)
    )
}
