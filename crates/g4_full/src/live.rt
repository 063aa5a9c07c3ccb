// The set that was made last.
ghost use Rattle.std.specs.Prelude.{◌≡◌, IfSome, None};
ghost use Rattle.g4_configs.specs.Configs.{Holds};

use g4_configs::Configs;

/// The number of a set that is remembered, and the set itself, if it is still there: so the next step needs not make it from its row.
#[derive(Drop)]
pub(crate) struct Live {
    pub number: u32,
    pub set: Option<Configs>,
}

impl Live {
    /// No set.
    pub fn none() -> Live
        ensures { result.set ≡ None }
    {
        Live {
            number: 0,
            set: None,
        }
    }
}
