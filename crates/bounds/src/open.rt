// A table to begin with.
ghost use Rattle.std.specs.Prelude.{◌≡◌};
ghost use Rattle.bounds.specs.Open.{open_of};

use base::answer::Answer;
use base::config::Config;
use base::refusals::Refusal;
use table::table::Table;

// A table that is refused has no slot, and the configuration that was: every entry refuses it again. No Result: `open_of` says
// what this table is on a refusal too.
#[derive(Clone, Copy)]
pub struct Opened {
    pub answer: Answer,
    pub table: Table,
}

// An empty table of this population, own number, simple and super quorum: four numbers as they come from outside, of which this
// makes a Config.
#[tactic(auto, unfolding(crate::specs::Open::open_of))]
pub fn open(n: usize, own: usize, simple: usize, sup: usize) -> Opened
    ensures { result ≡ open_of n own simple sup }
{
    let config = Config {
        n,
        own,
        simple,
        sup,
    };
    let answer = if config.fits() {
        Answer::Done
    } else {
        Answer::Refused {
            number: Refusal::OutsideBounds.number(),
        }
    };
    Opened {
        answer,
        table: Table::empty(config),
    }
}
