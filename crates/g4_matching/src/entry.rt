// A configuration in a list.

/// A configuration. Its return states are in a store, where they have a number.
#[derive(Clone, Copy, PartialEq, Eq)]
pub(crate) struct Entry {
    pub state: usize,
    pub rule: u32,
    pub alternative: u32,
    pub returns: u32,
    pub passed: bool,
}

impl Entry {
    ghost use Rattle.std.specs.Prelude.{◌≡◌};
    ghost use Rattle.g4_matching.specs.Listed.{key_of};

    /// What the entry is looked for by.
    pub fn key(&self) -> usize
        ensures { result ≡ key_of self.now }
    {
        self.state ^ self.returns as usize
    }
}
