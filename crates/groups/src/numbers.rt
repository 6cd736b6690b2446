// A number: groups of seven bits, low group first, the high bit set on all but the last, in the shortest form.
ghost use Rattle.std.specs.Prelude.{◌≡◌, ◌+◌, ◌-◌, ◌≤◌, ◌<◌, ◌^◌, length, drop};
ghost use Rattle.std.proofs.lemmas.List.Edits.{sets};
ghost use Rattle.groups.specs.Numbers.{last_group, later_in, number_at, read, landed, joined, bytes_in, bytes_of};
ghost use Rattle.groups.specs.Told.{numbered};

use base::refusals::Refusal;

// A number, and the place after it.
#[derive(Clone, Copy, PartialEq, Eq)]
pub struct Number {
    pub value: u64,
    pub next: usize,
}

// The number that begins at the place.
#[tactic(auto, using(crate::proofs::StepLaws::number_cut, crate::proofs::StepLaws::number_one, crate::proofs::StepLaws::later_room))]
pub fn number_at(trace: &[u8], at: usize) -> Result<Number, Refusal>
    ensures { numbered result ≡ number_at trace.now at }
{
    if trace.len() <= at {
        return Err(Refusal::Cut);
    }
    let b = u64::from(trace[at]);
    if b < 128 {
        return Ok(Number {
            value: b,
            next: at + 1,
        });
    }
    let rest = later_at(trace, at + 1, 8)?;
    Ok(with_group(b, rest))
}

// The groups after one with its high bit set; after the next so many may follow. The tenth of a number can only be 1.
#[tactic(auto, using(crate::proofs::StepLaws::later_cut, crate::proofs::StepLaws::later_room))]
fn later_at(trace: &[u8], at: usize, left: usize) -> Result<Number, Refusal>
    requires { left ≤ 8 }
    ensures { numbered result ≡ landed at (later_in left (drop at trace.now)) }
{
    if trace.len() <= at {
        return Err(Refusal::Cut);
    }
    let b = u64::from(trace[at]);
    if left == 0 {
        return last_group(b, 1, at + 1);
    }
    if b < 128 {
        return last_group(b, 127, at + 1);
    }
    let rest = later_at(trace, at + 1, left - 1)?;
    Ok(with_group(b, rest))
}

// The last of several groups, with the place after it: one of 0 would not be the shortest form.
fn last_group(b: u64, most: u64, next: usize) -> Result<Number, Refusal>
    requires { 1 ≤ next }
    ensures { numbered result ≡ landed (next - 1) (last_group most b) }
{
    if b < 1 || most < b {
        return Err(Refusal::Unreadable);
    }
    Ok(Number { value: b, next })
}

// The seven low bits of a byte below what the groups after it are.
fn with_group(b: u64, rest: Number) -> Number
    requires { rest.value < 2 ^ 57 }
    ensures { read result.value result.next ≡ joined b (read rest.value rest.next) }
{
    Number {
        value: 128 * rest.value + b % 128,
        next: rest.next,
    }
}

// Writes a number from a place on, and gives the place after it.
#[tactic(auto, unfolding(crate::specs::Numbers::bytes_of))]
pub fn put(out: &mut [u8], at: usize, number: u64) -> usize
    requires { at + 10 ≤ length out.old }
    ensures place { result ≡ at + length (bytes_of number) }
    ensures bytes { out.new ≡ sets out.old at (bytes_of number) }
{
    put_groups(out, at, number, 10)
}

// At most so many groups.
fn put_groups(out: &mut [u8], at: usize, number: u64, left: usize) -> usize
    requires { at + left ≤ length out.old }
    ensures place { result ≡ at + length (bytes_in left number) }
    ensures bytes { out.new ≡ sets out.old at (bytes_in left number) }
{
    if left == 0 {
        return at;
    }
    if number < 128 {
        out[at] = number as u8; // proved to fit; a TryFrom would answer an Err that never comes
        return at + 1;
    }
    out[at] = (number % 128 + 128) as u8;
    put_groups(out, at + 1, number / 128, left - 1)
}
