// What an attempt reads of the table, gathered once and lent to the search.
ghost use Rattle.std.specs.Prelude.{◌≡◌, ◌<◌, ◌*◌};
ghost use Rattle.std.proofs.lemmas.List.Edits.{sets};
ghost use Rattle.base.specs.Below.{list_below};
ghost use Rattle.deps.specs.Sets.{number};
ghost use Rattle.attempts.specs.Reads.{deps_of, seqs_of};

use deps::sets::DepSet;
use std::array;
use table::table::Table;

// The dependency sets of all slots, seven numbers each; a slot that is not in the table has none.
pub(crate) fn deps(table: Table) -> [u8; 1568]
    ensures { result ≡ deps_of table }
{
    let mut out = [0u8; 1568];
    for i in 0..224 {
        if i % 32 < table.lens[i / 32] {
            put_set(&mut out, i, table.slots[i].deps);
        }
    }
    out
}

// The dependency set of slot i, in its place.
fn put_set(out: &mut [u8; 1568], i: usize, deps: DepSet)
    requires { i < 224 }
    ensures { out.new ≡ sets out.old (7 * i) (list_below 7 (number deps)) }
{
    out[7 * i..7 * i + 7].copy_from_slice(&deps.cols);
}

// The sequences of all slots.
pub(crate) fn seqs(table: Table) -> [u32; 224]
    ensures { result ≡ seqs_of table }
{
    array::from_fn(|i| table.slots[i].seq)
}
