// One event on the table of an image, again and again, for bench/run. crates/bench_values/src/values.rt says what is answered.
ghost use Rattle.std.specs.Prelude.{◌≡◌};
ghost use Rattle.bench_values.specs.Values.{values_code};

#[unsafe(no_mangle)]
pub extern "C" fn njb_step(image: &[u8], trace: &[u8], times: u64) -> u64
    ensures { result ≡ values_code image.now trace.now times }
{
    bench_values::values::njb_step(image, trace, times)
}
