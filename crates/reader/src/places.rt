// What comes from a place of a trace on.
ghost use Rattle.std.specs.Prelude.{◌≡◌};
ghost use Rattle.reader.specs.Reader.{rest_from};

// How many bytes come from a place on.
pub fn rest_from(trace: &[u8], at: usize) -> usize
    ensures { result ≡ rest_from trace.now at }
{
    trace.len().saturating_sub(at)
}
