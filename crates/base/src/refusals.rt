// The refusals with their numbers, and the limit of a sequence.
ghost use Rattle.std.specs.Prelude.{◌≡◌};
ghost use Rattle.base.specs.Refusals.{refusal_number};

#[derive(Clone, Copy, Debug, PartialEq, Eq)]
pub enum Refusal {
    OutsideBounds, // a configuration or table outside the bounds, or a bar past its row's slots
    NoReplica, // a peer, row, reply, vote, ack or silent replica at N or more
    NoColumn, // a column 32 or more
    BadDependency, // a dependency at column 32 or more, or in a row N or more
    BadBatch, // a batch over 4, or the key of a put or get above 255
    OverLimit, // a sequence, given or about to be stored, over the limit
    NoSlot, // a log event or Lead for a slot not in the table
    ShortOrder, // an order list of fewer than 224 entries
    Cut, // a trace that ends inside a header or event
    Unreadable, // a number not in shortest form or over 64 bits, an unknown tag, kind or log status, a batch count over 4
    TooLong, // a trace over 65,536 bytes
}

impl Refusal {
    // Its number, by which C and the trace's text name it.
    pub fn number(self) -> u64
        ensures { result ≡ refusal_number self }
    {
        match self {
            Refusal::OutsideBounds => 1,
            Refusal::NoReplica => 2,
            Refusal::NoColumn => 3,
            Refusal::BadDependency => 4,
            Refusal::BadBatch => 5,
            Refusal::OverLimit => 6,
            Refusal::NoSlot => 7,
            Refusal::ShortOrder => 8,
            Refusal::Cut => 9,
            Refusal::Unreadable => 10,
            Refusal::TooLong => 11,
        }
    }
}

// A sequence is at most this.
pub const SEQUENCE_LIMIT: u64 = 4294967295;
