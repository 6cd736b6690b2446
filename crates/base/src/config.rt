// A configuration: how many replicas there are, which one is mine, and how many make a quorum.
ghost use Rattle.std.specs.Prelude.{◌≡◌};
ghost use Rattle.base.specs.Config.{config_fits};

#[derive(Clone, Copy, Debug, PartialEq, Eq)]
pub struct Config {
    pub n: usize,
    pub own: usize,
    pub simple: usize,
    pub sup: usize, // the super quorum
}

impl Config {
    // N 1 to 7, own below N, 1 <= simple <= super <= N.
    #[tactic(auto, unfolding(crate::specs::Config::config_fits))]
    pub fn fits(self) -> bool
        ensures { result ≡ config_fits self }
    {
        1 <= self.n
            && self.n <= 7
            && self.own < self.n
            && 1 <= self.simple
            && self.simple <= self.sup
            && self.sup <= self.n
    }
}
