// Which alternatives of a decision may be taken.
ghost use Rattle.std.specs.Prelude.{◌↔◌, IsTrue};
ghost use Rattle.g4_net.specs.Allowed.{Allows};

use g4_base::Sequence;

/// The alternatives of a decision that may be taken.
#[derive(Drop)]
pub enum Allowed {
    /// All of them.
    Every,
    /// These, by their numbers.
    Listed(Sequence<u32>),
}

impl Allowed {
    /// Whether the alternative may be taken.
    pub fn has(&self, alternative: u32) -> bool
        ensures { IsTrue result ↔ Allows self.now alternative }
    {
        match self {
            Allowed::Every => true,
            Allowed::Listed(list) => list.as_slice().contains(&alternative),
        }
    }
}
