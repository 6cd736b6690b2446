// The recovery choice on the votes that a prepare has gathered, by the Rust's counts or by the paper's.
ghost use Rattle.std.specs.Prelude.{◌≡◌, ◌≤◌, ◌<◌};
ghost use Rattle.recovering.specs.Recovery.{vote_at, such_votes, highest_vote, named_fit, counts_of, group_by, choice_by, answer_by};

use base::config::Config;
use base::marks;
use base::status::Status;
use refusing::refusal;
use votes::answer::Decision;
use votes::contents::Contents;
use votes::holder::decides;
use votes::identical;

// Whose counts.
#[derive(Clone, Copy, PartialEq, Eq)]
pub enum Rule {
    Rust,
    Paper,
}

// The row of the slot, the highest ballot that was voted at, and the row's default ballot.
#[derive(Clone, Copy)]
pub struct Prepare {
    pub row: usize,
    pub highest: u64,
    pub default: u64,
}

// Votes by replica: whether there is one, its status, and what it says. Three arrays, and no Option by replica: `answer_by` and the
// laws speak of these lists. Acks, which are marks of others, go beside them.
#[derive(Clone, Copy)]
pub struct Votes {
    pub voted: [bool; 7],
    pub statuses: [Status; 7],
    pub entries: [Contents; 7],
}

// How many votes have to be there, and how many of them identical.
#[derive(Clone, Copy)]
pub struct Counts {
    pub there: usize,
    pub identical: usize,
}

// Refused, or else chosen by the rule's counts. Acks by their marks.
pub fn choice(
    rule: Rule,
    config: Config,
    prepare: Prepare,
    acks: [bool; 7],
    votes: Votes,
) -> Decision
    ensures { result ≡ answer_by rule config prepare acks votes.voted votes.statuses votes.entries }
{
    let named = named(config.n, prepare.row, acks, votes.voted);
    match refusal::refusal(config, named, votes.voted, votes.entries) {
        Ok(()) => chosen(rule.counts(config), config, prepare, acks, &votes),
        Err(refusal) => Decision::Refused {
            number: refusal.number(),
        },
    }
}

// The row, and every replica that acked or voted, is below n.
fn named(n: usize, row: usize, acks: [bool; 7], voted: [bool; 7]) -> bool
    ensures { result ≡ named_fit n row acks voted }
{
    row < n && refusal::both_fit(n, acks, voted)
}

// From the last resort to the first: each holder takes the place of what comes after it.
fn chosen(
    counts: Counts,
    config: Config,
    prepare: Prepare,
    acks: [bool; 7],
    votes: &Votes,
) -> Decision
    ensures { result ≡ choice_by counts config prepare acks votes.now.voted votes.now.statuses votes.now.entries }
{
    if marks::count(acks) < config.simple {
        return Decision::Wait;
    }
    let entries = &votes.entries;
    let over = decides(
        votes.highest(Status::PreAccepting),
        entries,
        |words| Decision::PreAccepting(words),
        Decision::PreAccepting(Contents::NO_OP),
    );
    let grouped = decides(
        votes.group(counts, prepare),
        entries,
        |words| Decision::Accepting(words),
        over,
    );
    let accepting = decides(
        votes.highest(Status::Accepting),
        entries,
        |words| Decision::Accepting(words),
        grouped,
    );
    decides(
        votes.highest(Status::Committed),
        entries,
        |words| Decision::Committed(words),
        accepting,
    )
}

impl Rule {
    fn counts(self, config: Config) -> Counts
        requires { 1 ≤ config.simple }
        ensures { result ≡ counts_of self config }
    {
        match self {
            Rule::Rust => Counts {
                there: config.simple - 1,
                identical: config.simple,
            },
            Rule::Paper => Counts {
                there: config.n / 2,
                identical: config.n / 2,
            },
        }
    }
}

impl Votes {
    // The first holder of enough identical PreAccepting votes not from the row, if the highest ballot is the default one.
    fn group(&self, counts: Counts, prepare: Prepare) -> Option<usize>
        ensures { result ≡ group_by counts prepare self.now.voted self.now.statuses self.now.entries }
    {
        if prepare.highest != prepare.default {
            return None;
        }
        let such = self.such(prepare.row);
        if marks::count(such) < counts.there {
            return None;
        }
        identical::count_identical(self.entries, such, counts.identical).first
    }

    // The PreAccepting votes that are not from the row.
    fn such(&self, row: usize) -> [bool; 7]
        ensures { result ≡ such_votes row self.now.voted self.now.statuses }
    {
        std::array::from_fn(|r| self.is_vote(r, Status::PreAccepting) && r != row)
    }

    // The highest-numbered replica with a vote of the status.
    fn highest(&self, wanted: Status) -> Option<usize>
        ensures { result ≡ highest_vote wanted self.now.voted self.now.statuses }
    {
        let mut highest = None;
        for r in 0..7 {
            if self.is_vote(r, wanted) {
                highest = Some(r);
            }
        }
        highest
    }

    // Whether the replica has a vote, and of the status.
    fn is_vote(&self, r: usize, wanted: Status) -> bool
        requires { r < 7 }
        ensures { result ≡ vote_at wanted self.now.voted self.now.statuses r }
    {
        self.voted[r] && self.statuses[r] == wanted
    }
}
