// What a handler looks at in a table.
ghost use Rattle.std.specs.Prelude.{◌≡◌};
ghost use Rattle.deps.specs.Batches.{no_op};
ghost use Rattle.changes.specs.View.{slot_seen, view_with, view_of};

use base::config::Config;
use bounds::bounds::fits;
use bounds::highest::highest;
use bounds::shown::Shown;
use deps::batches::Batch;
use deps::sets::DepSet;
use slots::slot::Slot;
use table::place::Place;

// That within the bounds there are at most seven rows is a clause of who takes a view (`Seven`), and no ghost field: each view
// that a definition makes, as `view_with`, would have to hold a proof of it.
#[derive(Clone, Copy)]
pub struct View {
    pub slot: Slot, // at the message's place; where the table has none a null slot (`slot_seen`), with which a handler goes on
    pub config: Config,
    pub mine: DepSet, // what the message's batch waits for, as the table knows it
    pub highest: u32, // the highest sequence of that set
    pub within: bool, // whether the table is within the bounds
    pub held: bool, // whether the table holds the place
}

// For a message that is to the place and has the batch.
#[tactic(auto, unfolding(crate::specs::View::view_of))]
pub fn look<S: Shown>(shown: &S, at: Place, batch: Batch) -> View
    ensures { result ≡ view_of (S.table shown.now) at batch }
{
    let mine = shown.keys().identify(batch);
    look_with(shown, at, mine, highest(shown, mine))
}

// For one without contents: an empty batch waits for nothing.
pub fn look_plain<S: Shown>(shown: &S, at: Place) -> View
    ensures { result ≡ view_of (S.table shown.now) at no_op }
{
    look_with(shown, at, DepSet::EMPTY, 0)
}

fn look_with<S: Shown>(shown: &S, at: Place, mine: DepSet, highest: u32) -> View
    ensures { result ≡ view_with (S.table shown.now) at mine highest }
{
    View {
        slot: slot_seen(shown, at),
        config: shown.config(),
        mine,
        highest,
        within: fits(shown),
        held: shown.holds(at),
    }
}

#[tactic(auto, unfolding(crate::specs::View::slot_seen))]
fn slot_seen<S: Shown>(shown: &S, at: Place) -> Slot
    ensures { result ≡ slot_seen (S.table shown.now) at }
{
    if shown.holds(at) {
        shown.slot_no(at.index())
    } else {
        Slot::NULL
    }
}
