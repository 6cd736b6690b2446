// Numbers and marks as the host passes them.
ghost use Rattle.std.specs.Prelude.{◌≡◌, ◌≤◌, length};
ghost use Rattle.passed.specs.Slices.{marks_known, config_of};

use base::config::Config;
use base::numbers::size;
use octets::known::each_below;

pub fn config(n: u64, own: u64, simple: u64, sup: u64) -> Config
    ensures { result ≡ config_of n own simple sup }
{
    Config {
        n: size(n),
        own: size(own),
        simple: size(simple),
        sup: size(sup),
    }
}

// Whether each of the seven marks at the front is 0 or 1.
pub fn marks_known(s: &[u8]) -> bool
    requires { 7 ≤ length s.now }
    ensures { result ≡ marks_known s.now }
{
    each_below(s, 0, 7, 1, 2)
}
