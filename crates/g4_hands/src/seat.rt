// What a hand has of one deque: its own end, or the end from which it steals.
ghost use Rattle.std.specs.Prelude.{◌≡◌, ◌<◌, ◌∷◌, [], true, false, MatchOption};
ghost use Rattle.g4_hands.specs.Reaches.{having};
ghost use Rattle.g4_hands.specs.Shares.{IsFirst, WasEmpty};

use crate::pile::Pile;
use crate::thief::Thief;
use std::marker::Model;
use std::sync::Wait;

/// An end of a deque.
#[derive(Drop)]
pub enum Way {
    Own(Pile),
    Other(Thief),
}

/// What a hand has of one deque. Contracts see what it knows of the deque.
#[derive(Drop)]
pub struct Seat {
    way: Way,
}

impl Model for Seat {
    ghost use Rattle.g4_hands.specs.Reaches.{Reach};

    ghost Value = { Reach };

    ghost use Rattle.g4_hands.specs.Seats.{IsWay, way_reach};

    ghost view = { λ s. way_reach s.way };

    ghost invariant = { λ s. IsWay s.way };
}

impl Seat {
    /// The seat at the hand's own deque.
    pub fn own(pile: Pile) -> Seat
        requires { pile.own ≡ true }
        ensures { result ≡ pile }
    {
        Seat {
            way: Way::Own(pile),
        }
    }

    /// The seat at the deque of another hand.
    pub fn other(thief: Thief) -> Seat
        requires { thief.own ≡ false }
        ensures { result ≡ thief }
    {
        Seat {
            way: Way::Other(thief),
        }
    }

    /// Takes the first file that is left on the deque.
    pub fn take<R: Wait>(&mut self, rt: &R) -> Option<u32>
        requires { 0 < self.old.share.parts }
        ensures { MatchOption result ((self.new ≡ self.old) × WasEmpty self.old.share)
            (λ k. (self.new ≡ having self.old k) × IsFirst self.old.share (k ∷ [])) }
    {
        match &mut self.way {
            Way::Own(pile) => pile.take(),
            Way::Other(thief) => thief.take(rt),
        }
    }
}
