// The distance: document 01, 'The network'.
ghost use Rattle.std.specs.Prelude.{◌≡◌};
ghost use Rattle.network.specs.Distance.{NONE};

// A distance, or NONE. No Option: document 01 has NONE as 'an associated constant of the distance', and an answer array holds a distance as one word.
#[derive(Clone, Copy, Debug, PartialEq, Eq)]
pub struct Distance {
    pub value: u32,
}

impl Distance {
    // "Can't be reached" or "empty place".
    pub const NONE: u32 = 4294967295;

    // 'Every distance is at most 4,294,770,690.'
    pub const LONGEST: u32 = 4294770690;

    pub fn new(value: u32) -> Self
        ensures { result.value ≡ value }
    {
        Self { value }
    }
}
