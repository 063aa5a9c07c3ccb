// Values by names, found in the time of a few comparisons.
ghost use Rattle.std.specs.Prelude.{◌≡◌, ℕ, List, None, Some, OnOk, option_map, if◌then◌else◌};
ghost use Rattle.std.specs.Str.{bytes_eq};
ghost use Rattle.g4_fetch.specs.ByNames.{value_of};

use std::alloc::{AllocError, Global};
use std::collections::BTreeMap;

/// Values by names.
#[derive(Drop)]
pub struct ByName<T> {
    pub entries: BTreeMap<String, T>,
}

impl<T: Drop> ByName<T> {
    /// No name has a value.
    pub fn new(alloc: Global) -> Self
        ensures { (name : List ℕ) → value_of result name ≡ None }
    {
        ByName {
            entries: BTreeMap::new(alloc),
        }
    }

    /// The value of a name.
    pub fn get(&self, name: &str) -> Option<&T>
        ensures { option_map (λ value. value.now) result ≡ value_of self.now name.now }
    {
        self.entries.get(name)
    }

    /// Gives a name this value.
    pub fn add(&mut self, alloc: Global, name: &str, value: T) -> Result<(), AllocError>
        ensures { OnOk result ((other : List ℕ)
            → value_of self.new other ≡ (if bytes_eq name.now other then Some value else value_of self.old other)) }
    {
        let name = String::from_str(alloc, name)?;
        self.entries.insert(name, value)?;
        Ok(())
    }
}
