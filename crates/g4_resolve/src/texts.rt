// The places of texts in a list that is kept with them.
ghost use Rattle.std.specs.Prelude.{◌≡◌, ◌≤◌, ◌<◌, ◌^◌, IfOk, length};
ghost use Rattle.g4_names.specs.Places.{ArePlaces};
ghost use Rattle.g4_resolve.specs.Resolving.{place_named};

use g4_base::Text;
use g4_names::{Places, places_of};
use std::alloc::{AllocError, Global};

/// Texts with the place of the first of each.
#[derive(Drop)]
pub struct Texts<'s> {
    texts: &'s [Text],
    places: Places<'s>,
    ghost few: { length texts.now < 2 ^ 32 },
    ghost placed: { ArePlaces texts.now places },
}

impl<'s> Texts<'s> {
    /// These texts.
    ///
    /// # Errors
    /// No memory, also where there are more texts than numbers of 32 bits.
    pub fn of(alloc: Global, texts: &'s [Text]) -> Result<Self, AllocError>
        ensures { IfOk result (λ made. made.texts.now ≡ texts.now) }
    {
        let places = places_of(alloc, texts)?;
        Ok(Texts { texts, places })
    }

    /// The place of the first that is this one, or how many there are.
    pub fn place_of(&self, text: &str) -> usize
        ensures place { result ≡ place_named self.now.texts.now text.now }
        ensures within { result ≤ length self.now.texts.now }
        ensures few { length self.now.texts.now < 2 ^ 32 }
    {
        match self.places.place_of(text) {
            Some(place) => place as usize,
            None => self.texts.len(),
        }
    }
}
