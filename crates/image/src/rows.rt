// What the table has beside its slots: the configuration, a number for each row, columns for each key.
ghost use Rattle.std.specs.Prelude.{◌≡◌, ◌+◌, ◌*◌, ◌≤◌, length, drop};
ghost use Rattle.layout.specs.Numbers.{lay};
ghost use Rattle.octets.specs.Sets.{rows_at};
ghost use Rattle.image.specs.Tables.{config_at, keys_at, config_bytes, rows_bytes, keys_bytes};

use base::config::Config;
use deps::sets::DepSet;
use keys::columns::Keys;
use layout::numbers::{byte, put_byte};
use octets::sets::{cols_at, put_set};
use std::array;

pub fn config_at(s: &[u8]) -> Config
    requires { 4 ≤ length s.now }
    ensures { result ≡ config_at s.now }
{
    Config {
        n: usize::from(s[0]),
        own: usize::from(s[1]),
        simple: usize::from(s[2]),
        sup: usize::from(s[3]),
    }
}

pub fn put_config(out: &mut [u8], config: Config)
    requires { 4 ≤ length out.old }
    ensures { out.new ≡ lay out.old 0 (config_bytes config) }
{
    put_byte(out, 0, byte(config.n));
    put_byte(out, 1, byte(config.own));
    put_byte(out, 2, byte(config.simple));
    put_byte(out, 3, byte(config.sup));
}

// The lengths or the bars of the rows.
pub fn rows_at(s: &[u8], at: usize) -> [usize; 7]
    requires { at + 7 ≤ length s.now }
    ensures { result ≡ rows_at (drop at s.now) }
{
    array::from_fn(|i| usize::from(s[at + i]))
}

// This loop, those of the keys and of the slots, that of the marks in slot_bytes and that of the requests in layout differ in what
// they write of an element. One over a closure would be a line no shorter at each, and take a clause for what the closure writes.
pub fn put_rows(out: &mut [u8], at: usize, rows: [usize; 7])
    requires { at + 7 ≤ length out.old }
    ensures { out.new ≡ lay out.old at (rows_bytes rows) }
{
    for (i, row) in rows.iter().enumerate() {
        out[at + i] = byte(*row);
    }
}

pub fn keys_at(s: &[u8], at: usize) -> Keys
    requires { at + 1792 ≤ length s.now }
    ensures { result ≡ keys_at (drop at s.now) }
{
    let cols = |key: usize|
        requires { at + 7 * key + 7 ≤ length s.now }
        ensures { result ≡ rows_at (drop (at + 7 * key) s.entry.now) }
    { cols_at(s, at + 7 * key) };
    Keys::of(array::from_fn(cols))
}

pub fn put_keys(out: &mut [u8], at: usize, keys: Keys)
    requires { at + 1792 ≤ length out.old }
    ensures { out.new ≡ lay out.old at (keys_bytes keys) }
{
    for (key, cols) in keys.rows().iter().enumerate() {
        put_set(out, at + 7 * key, DepSet { cols: *cols });
    }
}
