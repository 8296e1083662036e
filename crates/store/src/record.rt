// The store record, the refusals and the answers of a call.
ghost use Rattle.std.specs.Prelude.{◌≡◌, ◌+◌, leb, Ok, Err};
ghost use Rattle.store.specs.Capacity.{capacity_of, is_limit, fitting, counting};
ghost use Rattle.store.specs.Inner.{fill_in, refusal_of};
ghost use Rattle.store.specs.Refusals.{refusal_number};

// The refusals, numbered 1 to 11 in this order, and 13.
#[derive(Clone, Copy)]
pub enum Refusal {
    Tiny,
    ShortLookup,
    Item,
    Handle,
    Full,
    Large,
    Scratch,
    Output,
    NoFile,
    Damaged,
    Weights,
    AboveLimit,
}

// The number of a refusal.
impl From<Refusal> for u32 {
    ghost from_gives = { λ refusal number. number ≡ refusal_number refusal };

    fn from(refusal: Refusal) -> u32 {
        match refusal {
            Refusal::Tiny => 1,
            Refusal::ShortLookup => 2,
            Refusal::Item => 3,
            Refusal::Handle => 4,
            Refusal::Full => 5,
            Refusal::Large => 6,
            Refusal::Scratch => 7,
            Refusal::Output => 8,
            Refusal::NoFile => 9,
            Refusal::Damaged => 10,
            Refusal::Weights => 11,
            Refusal::AboveLimit => 13,
        }
    }
}

// The record, laid out as C has it: how many nodes there is room for, how many are held, and the largest item that
// they may have.
#[repr(C)]
#[derive(Clone, Copy)]
pub struct Store {
    pub capacity: u32,
    pub count: u32,
    pub limit: u32,
}

// Why the inner functions placed nothing: no room for a node, or words that no sound store has.
#[derive(Clone, Copy)]
pub enum Unplaced {
    Full,
    Damaged,
}

// The refusal that it is.
impl From<Unplaced> for Refusal {
    ghost from_gives = { λ why refusal. refusal ≡ refusal_of why };

    fn from(why: Unplaced) -> Refusal {
        match why {
            Unplaced::Full => Refusal::Full,
            Unplaced::Damaged => Refusal::Damaged,
        }
    }
}

// How far a store is filled: room for so many nodes, and so many held. It is all that the inner functions are told of
// the record, so what they promise holds for every limit.
#[derive(Clone, Copy)]
pub struct Fill {
    pub capacity: u32,
    pub count: u32,
}

// What a call that places a family answers: its handle and how many nodes were added.
#[derive(Clone, Copy)]
pub struct Placement {
    pub handle: u32,
    pub added: u32,
}

// What a call gives back: the record, and its answer or a refusal.
#[derive(Clone, Copy)]
pub struct Answered<T> {
    pub store: Store,
    pub answer: Result<T, Refusal>,
}

// The capacity that so many node words give.
pub fn capacity_of(words: usize) -> u32
    ensures { result ≡ capacity_of words }
{
    (words / 3).min(1000000) as u32
}

// Whether a number is an item limit, 1 to 512.
#[tactic(auto, using(crate::proofs::Fitting::limit_none, crate::proofs::Fitting::limit_last))]
pub fn is_limit(limit: u32) -> bool
    ensures { result ≡ is_limit limit }
{
    if limit < 1 {
        return false;
    }
    limit <= 512
}

impl Store {
    // The record of an empty store.
    pub fn new(capacity: u32, limit: u32) -> Self
        ensures { (result.capacity ≡ capacity) × (result.count ≡ 0) × (result.limit ≡ limit) }
    {
        Store {
            capacity,
            count: 0,
            limit,
        }
    }

    // How far the store is filled.
    pub fn fill(self) -> Fill
        ensures { result ≡ fill_in self }
    {
        Fill {
            capacity: self.capacity,
            count: self.count,
        }
    }

    // The record with so many nodes held.
    pub fn with_count(mut self, count: u32) -> Self
        ensures { result ≡ counting self count }
    {
        self.count = count;
        self
    }

    // Whether a handle is at most count + 1.
    pub fn holds(self, handle: u32) -> bool
        ensures { result ≡ leb handle (self.count + 1) }
    {
        if handle < 2 {
            return true;
        }
        handle - 2 < self.count
    }

    // Whether the record fits words of these lengths: none of the four certain causes of 10.
    pub fn fits(self, nodes: usize, lookup: usize) -> bool
        ensures { result ≡ fitting self nodes lookup }
    {
        if !is_limit(self.limit) {
            return false;
        }
        if self.capacity != capacity_of(nodes) {
            return false;
        }
        if lookup <= self.capacity as usize {
            return false;
        }
        self.count <= self.capacity
    }

    // An answer, with the record as it is.
    pub fn answered<T>(self, answer: Result<T, Refusal>) -> Answered<T>
        ensures { (result.store ≡ self) × (result.answer ≡ answer) }
    {
        Answered {
            store: self,
            answer,
        }
    }

    // A handle given, for which so many nodes were added, with the record as it is.
    pub fn placed(self, handle: u32, added: u32) -> Answered<Placement>
        ensures { (result.store ≡ self) × (result.answer ≡ Ok (record { handle = handle; added = added })) }
    {
        self.answered(Ok(Placement { handle, added }))
    }

    // A refusal, with the record as it is.
    pub fn refused<T>(self, refusal: Refusal) -> Answered<T>
        ensures { (result.store ≡ self) × (result.answer ≡ Err refusal) }
    {
        self.answered(Err(refusal))
    }
}
