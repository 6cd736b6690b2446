// Kinds, requests and batches, by value.
ghost use Rattle.std.specs.Prelude.{◌≡◌, [], ◌∷◌, length};
ghost use Rattle.deps.specs.Batches.{batch_of, with_request, present, kind_fits, batch_fits, same_batch};
ghost use Rattle.deps.specs.Equal.{batches_alike};
ghost use Rattle.std.specs.Cmp.{partial_equiv_from_equiv};

// A key is wider than its bound, so that one out of bounds can be held, and refused.
#[derive(Clone, Copy, Debug, PartialEq, Eq)]
pub enum Kind {
    Other,
    Put { key: u16, value: u64 },
    Get { key: u16 },
}

#[derive(Clone, Copy, Debug, PartialEq, Eq)]
pub struct Request {
    pub client: u64,
    pub id: u64,
    pub kind: Kind,
}

// The first count requests; what stands past them is nobody's. An array and a count, since there is no heap.
#[derive(Clone, Copy, Debug)]
pub struct Batch {
    pub count: usize,
    pub reqs: [Request; 4],
}

impl Kind {
    // The key of a put or get is at most 255.
    pub fn fits(self) -> bool
        ensures { result ≡ kind_fits self }
    {
        match self {
            Kind::Other => true,
            Kind::Put { key, value: _ } => key <= 255,
            Kind::Get { key } => key <= 255,
        }
    }
}

impl Request {
    // No request: what stands past a batch's count.
    pub const NONE: Request = Request {
        client: 0,
        id: 0,
        kind: Kind::Other,
    };
}

impl Batch {
    // The empty batch.
    pub const NO_OP: Batch = Batch {
        count: 0,
        reqs: [Request::NONE; 4],
    };

    // A batch of one request.
    pub fn of(request: Request) -> Batch
        ensures { result ≡ batch_of (request ∷ []) }
    {
        Batch::NO_OP.with(request)
    }

    // One request more; a full batch stays as it is.
    pub fn with(self, request: Request) -> Batch
        ensures { result ≡ with_request self request }
    {
        let mut out = self;
        if out.count < 4 {
            out.reqs[out.count] = request;
            out.count += 1;
        }
        out
    }

    // How many requests it holds: its count, and no more than there is room for.
    pub fn held(self) -> usize
        ensures { result ≡ length (present self) }
    {
        self.count.min(4)
    }

    // The requests that it holds.
    pub fn requests(&self) -> &[Request]
        ensures { result.now ≡ present self.now }
    {
        &self.reqs[..self.held()]
    }

    // At most 4 requests, and no key of a put or get above 255.
    pub fn fits(self) -> bool
        ensures { result ≡ batch_fits self }
    {
        self.count <= 4 && self.requests().iter().all(|request| request.kind.fits())
    }

    // Whether the two have one count and the same requests: `==`, by the name that docs/ENTRIES.md has.
    pub fn same(self, other: Batch) -> bool
        ensures { result ≡ same_batch self other }
    {
        self == other
    }
}

// Not derived: what stands past the count is not compared.
impl PartialEq for Batch {
    ghost eq = { same_batch };

    ghost laws = { partial_equiv_from_equiv batches_alike };

    fn eq(&self, other: &Batch) -> bool {
        self.count == other.count && self.requests() == other.requests()
    }
}

impl Eq for Batch {
    ghost laws = { batches_alike };
}
