// The recovery choice on the votes that a prepare has gathered, by the Rust's counts and by the paper's, for C.
// crates/host/src/recovery.rt says what the slices hold and what is answered.
ghost use Rattle.std.specs.Prelude.{◌≡◌};
ghost use Rattle.recovering.specs.declared.recovery.Rule.TheVariants.{Rust, Paper};
ghost use Rattle.passed.specs.Slices.{config_of};
ghost use Rattle.choosing.specs.Recovery.{prepare_of, choice_code, choice_bytes};

#[unsafe(no_mangle)]
pub extern "C" fn nj_rust_choice(
    n: u64,
    own: u64,
    simple: u64,
    sup: u64,
    row: u64,
    highest: u64,
    default: u64,
    acks: &[u8],
    votes: &[u8],
    out: &mut [u8],
) -> u64
    ensures result { result ≡ choice_code Rust (config_of n own simple sup) (prepare_of row highest default) acks.now votes.now out.old }
    ensures bytes { out.new ≡ choice_bytes Rust (config_of n own simple sup) (prepare_of row highest default) acks.now votes.now out.old }
{
    host::recovery::nj_rust_choice(n, own, simple, sup, row, highest, default, acks, votes, out)
}

#[unsafe(no_mangle)]
pub extern "C" fn nj_paper_choice(
    n: u64,
    own: u64,
    simple: u64,
    sup: u64,
    row: u64,
    highest: u64,
    default: u64,
    acks: &[u8],
    votes: &[u8],
    out: &mut [u8],
) -> u64
    ensures result { result ≡ choice_code Paper (config_of n own simple sup) (prepare_of row highest default) acks.now votes.now out.old }
    ensures bytes { out.new ≡ choice_bytes Paper (config_of n own simple sup) (prepare_of row highest default) acks.now votes.now out.old }
{
    host::recovery::nj_paper_choice(n, own, simple, sup, row, highest, default, acks, votes, out)
}
