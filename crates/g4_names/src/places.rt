// Places by names.
ghost use Rattle.std.specs.Prelude.{◌≡◌, ◌<◌, ◌^◌, ℕ, List, None, IfOk, OnOk, OnErr, if◌then◌else◌, length};
ghost use Rattle.std.specs.Option.{option_or};
ghost use Rattle.std.specs.Str.{bytes_eq};
ghost use Rattle.g4_names.specs.Places.{ArePlaces, place_in};

use g4_base::Text;
use std::alloc::{AllocError, Global};
use std::collections::BTreeMap;

/// The place of the first of each name in a list.
#[derive(Drop)]
pub struct Places<'a> {
    by_name: BTreeMap<&'a str, u32>,
}

impl<'a> Places<'a> {
    /// No name has a place.
    pub fn new(alloc: Global) -> Self
        ensures { (name : List ℕ) → place_in result name ≡ None }
    {
        Places {
            by_name: BTreeMap::new(alloc),
        }
    }

    /// Gives the name this place, unless it has one.
    ///
    /// # Errors
    /// No memory: then all is as it was.
    pub fn add(&mut self, name: &'a str, place: u32) -> Result<(), AllocError>
        ensures added { OnOk result ((other : List ℕ)
            → place_in self.new other ≡ option_or (place_in self.old other) (if bytes_eq name.now other then Some place else None)) }
        ensures kept { OnErr result ((other : List ℕ) → place_in self.new other ≡ place_in self.old other) }
    {
        if !self.by_name.contains_key(name) {
            self.by_name.insert(name, place)?;
        }
        Ok(())
    }

    /// The place of the name, if it has one.
    pub fn place_of(&self, name: &str) -> Option<u32>
        ensures { result ≡ place_in self.now name.now }
    {
        self.by_name.get(name).copied()
    }
}

/// The places of the names, counted from 0 in order.
///
/// # Errors
/// No memory, also where there are more names than numbers of 32 bits.
pub fn places_of(alloc: Global, names: &[Text]) -> Result<Places<'_>, AllocError>
    ensures few { OnOk result (length names.now < 2 ^ 32) }
    ensures places { IfOk result (λ places. ArePlaces names.now places) }
{
    if names.len() > u32::MAX as usize {
        return Err(AllocError);
    }
    let mut places = Places::new(alloc);
    for (place, name) in names.iter().enumerate() {
        places.add(name.as_str(), place as u32)?;
    }
    Ok(places)
}
