// Numbers as they come from outside, and as they are held.
ghost use Rattle.std.specs.Prelude.{◌≡◌};

// A size has 64 bits, so every number is one. std has no From for it, and its TryFrom answers a Result that is never an Err.
pub fn size(number: u64) -> usize
    ensures { result ≡ number }
{
    number as usize
}
