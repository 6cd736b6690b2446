// The fast decision on the replies to a PreAccept.
ghost use Rattle.std.specs.Prelude.{◌≡◌, true};
ghost use Rattle.base.specs.Config.{config_fits};
ghost use Rattle.base.specs.Marks.{marks_fit};
ghost use Rattle.votes.specs.declared.answer.Decision.TheVariants.{Accepting};
ghost use Rattle.decisions.specs.Fast.{gone_count, joined, fast_decision, fast_answer};

use base::config::Config;
use base::marks;
use deps::batches::Batch;
use refusing::refusal;
use votes::answer::Decision;
use votes::contents::Contents;
use votes::holder::decides;
use votes::{contents, identical};

// Replies by replica: whether there is one, its sequence, its dependency columns. Silent replicas by their marks. Marks and values
// apart, and no Option by replica: `fast_answer` and the laws speak of these lists.
pub fn decision(
    config: Config,
    avoided: bool,
    replied: [bool; 7],
    seqs: [u64; 7],
    deps: [[u8; 7]; 7],
    silent: [bool; 7],
) -> Decision
    ensures { result ≡ fast_answer config avoided replied seqs deps silent }
{
    let entries = contents::entries(seqs, deps, [Batch::NO_OP; 7]);
    let named = refusal::both_fit(config.n, replied, silent);
    match refusal::refusal(config, named, replied, entries) {
        Ok(()) => decided(config, avoided, replied, entries, silent),
        Err(refusal) => Decision::Refused {
            number: refusal.number(),
        },
    }
}

// The decision on replies that are not refused.
fn decided(
    config: Config,
    avoided: bool,
    replied: [bool; 7],
    entries: [Contents; 7],
    silent: [bool; 7],
) -> Decision
    requires config_value { config_fits config ≡ true }
    requires replied_value { marks_fit config.n replied ≡ true }
    requires silent_value { marks_fit config.n silent ≡ true }
    ensures { result ≡ fast_decision config avoided replied entries silent }
{
    let acks = marks::count(replied);
    if acks < config.simple {
        return Decision::Wait;
    }
    if avoided {
        return slow(replied, entries);
    }
    let identical = identical::count_identical(entries, replied, config.sup);
    let gone = gone(config.own, replied, silent);
    let otherwise = if identical.most + (config.n - gone - acks) < config.sup {
        slow(replied, entries)
    } else {
        Decision::Wait
    };
    decides(
        identical.first,
        &entries,
        |words| Decision::Committed(words),
        otherwise,
    )
}

// Accepting, with the union of the dependencies and the greatest sequence.
fn slow(replied: [bool; 7], entries: [Contents; 7]) -> Decision
    ensures { result ≡ Accepting (joined replied entries) }
{
    let mut all = Contents::NONE;
    for (r, entry) in entries.iter().enumerate() {
        if replied[r] {
            all = all.join(*entry);
        }
    }
    Decision::Accepting(all)
}

// How many replicas are silent, not acked and not myself.
fn gone(own: usize, replied: [bool; 7], silent: [bool; 7]) -> usize
    ensures { result ≡ gone_count own replied silent }
{
    (0..7)
        .filter(|r| silent[*r] && !replied[*r] && *r != own)
        .count()
}
