// How far a slot has come.
ghost use Rattle.std.specs.Prelude.{◌≡◌};
ghost use Rattle.base.specs.Status.{rank_of};

#[derive(Clone, Copy, Debug, PartialEq, Eq)]
pub enum Status {
    Null,
    PreAccepting,
    Accepting,
    Committed,
    Executed,
}

impl Status {
    // Its place in the rising order, from 0 for Null. No derived order: the image has this number, and `rank_of` speaks of it.
    pub fn rank(self) -> u8
        ensures { result ≡ rank_of self }
    {
        match self {
            Status::Null => 0,
            Status::PreAccepting => 1,
            Status::Accepting => 2,
            Status::Committed => 3,
            Status::Executed => 4,
        }
    }
}
