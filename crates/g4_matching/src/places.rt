// A place noted for each number.
ghost use Rattle.std.specs.Prelude.{◌≡◌, ◌<◌, ◌≤◌, [], IfOk, OnErr, OnOk, length, slice_get};
ghost use Rattle.g4_matching.specs.Places.{IsSet, Keeps};

use std::alloc::{AllocError, Global};
use std::marker::Model;

/// For each number the place that was noted for it last; 0 where none was.
#[derive(Drop)]
pub(crate) struct Places {
    places: Vec<usize>,
}

impl Model for Places {
    ghost use Rattle.std.specs.Prelude.{List, ℕ};

    ghost Value = { List ℕ };

    ghost view = { λ p. p.places.items };
}

impl Places {
    /// No places.
    pub fn new(alloc: Global) -> Places
        ensures { result ≡ [] }
    {
        Places {
            places: Vec::new(alloc),
        }
    }

    /// The place of a number, if there is one.
    pub fn get(&self, number: usize) -> Option<usize>
        ensures { result ≡ slice_get self.now number }
    {
        self.places.get(number).copied()
    }

    /// Makes room for a number.
    fn make_room(&mut self, number: usize) -> Result<(), AllocError>
        ensures keeps { Keeps self.old self.new }
        ensures room { OnOk result (number < length self.new) }
    {
        while self.places.len() <= number {
            self.places.push(0)?;
        }
        Ok(())
    }

    /// Notes the place of a number.
    pub fn set(&mut self, number: usize, place: usize) -> Result<(), AllocError>
        ensures set { OnOk result (IsSet self.old number place self.new) }
        ensures unset { OnErr result (Keeps self.old self.new) }
    {
        self.make_room(number)?;
        self.places[number] = place;
        Ok(())
    }
}
