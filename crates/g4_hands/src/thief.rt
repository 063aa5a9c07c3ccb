// The end of a deque from which another hand steals.
ghost use Rattle.std.specs.Prelude.{◌≡◌, ◌<◌, ◌∷◌, ◌++◌, [], false, MatchOption};
ghost use Rattle.crossbeam_deque.specs.Handles.{IsPassOf, stealer_deque, stealer_flavor, view};
ghost use Rattle.g4_hands.specs.Reaches.{having, reach};
ghost use Rattle.g4_hands.specs.Shares.{IsFirst, WasEmpty, share};

use crate::share::{End, Place, Take};
use crossbeam_deque::Steal;
use std::marker::Model;
use std::sync::Wait;

/// The end of another hand's deque. Contracts see what its pass knows of the deque.
#[derive(Drop)]
pub struct Thief {
    end: End,
    place: Place,
}

impl Model for Thief {
    ghost use Rattle.std.specs.Prelude.{◌≡◌, false};
    ghost use Rattle.crossbeam_deque.specs.Handles.{IsPassOf, stealer_deque, stealer_flavor, view as known};
    ghost use Rattle.g4_hands.specs.Reaches.{Reach, reach};

    ghost Value = { Reach };

    ghost view = { λ t. reach false (stealer_deque t.end) (known t.place) };

    ghost invariant = { λ t. (stealer_flavor t.end ≡ 0) × IsPassOf (stealer_deque t.end) t.place };
}

/// Takes the first file that is left. Where another taker was ahead it tries again.
fn steal<R: Wait>(rt: &R, end: &End, place: &mut Place) -> Option<u32>
    requires end { (stealer_flavor end.now ≡ 0) × IsPassOf (stealer_deque end.now) place.old }
    requires part { 0 < (view place.old).parts }
    ensures same { IsPassOf (stealer_deque end.now) place.new }
    ensures taken { MatchOption result
        ((view place.new ≡ view place.old) × WasEmpty (view place.old))
        (λ k. (view place.new ≡ share (view place.old).parts (view place.old).dealt ((view place.old).taken ++ k ∷ []))
        × IsFirst (view place.old) (k ∷ [])) }
{
    for _ in rt.forever() {
        match end.steal_as::<Take>(place) {
            Steal::Success(file) => return Some(file),
            Steal::Empty => return None,
            Steal::Retry => {}
        }
    }
    unreachable!()
}

impl Thief {
    /// A pass of an end.
    pub fn new(end: End, place: Place) -> Thief
        requires { (stealer_flavor end ≡ 0) × IsPassOf (stealer_deque end) place }
        ensures { result ≡ reach false (stealer_deque end) (view place) }
    {
        Thief { end, place }
    }

    /// Steals the first file that is left. Where another taker was ahead it tries again.
    pub fn take<R: Wait>(&mut self, rt: &R) -> Option<u32>
        requires { 0 < self.old.share.parts }
        ensures { MatchOption result ((self.new ≡ self.old) × WasEmpty self.old.share)
            (λ k. (self.new ≡ having self.old k) × IsFirst self.old.share (k ∷ [])) }
    {
        steal(rt, &self.end, &mut self.place)
    }
}
