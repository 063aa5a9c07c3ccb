// A hand of a deal.
ghost use Rattle.std.specs.Prelude.{◌≡◌, ◌≤◌, ◌<◌, ◌+◌, ℕ, MatchOption, Some, length, slice_get};
ghost use Rattle.g4_hands.specs.Hands.{AllWereEmpty, IsHand, Took, TookOne, WereEmpty, holding};
ghost use Rattle.g4_hands.specs.Reaches.{Reach};

use crate::seat::Seat;
use std::marker::Model;
use std::sync::Wait;

/// One of the hands to which files were dealt, with a seat at each deque. Contracts see the deal, which of the hands it is, and
/// what it has taken from each deque.
#[derive(Drop)]
pub struct Hand {
    files: u32,
    number: usize,
    seats: Vec<Seat>,
}

impl Model for Hand {
    ghost use Rattle.g4_hands.specs.Hands.{Holding, IsHand, holding};

    ghost Value = { Holding };

    ghost view = { λ h. holding h.files h.number h.seats.items };

    ghost invariant = { λ h. IsHand h.files h.number h.seats.items };
}

/// Takes a file from the deque of this seat.
fn take_at<R: Wait>(rt: &R, seats: &mut [Seat], deque: usize) -> Option<u32>
    requires range { deque < length seats.old }
    requires parts { (deque : ℕ) (r : Reach) → slice_get seats.old deque ≡ Some r → 0 < r.share.parts }
    ensures { MatchOption result ((seats.new ≡ seats.old) × WereEmpty deque (deque + 1) seats.old) (TookOne seats.old seats.new) }
{
    let seat = &mut seats[deque];
    seat.take(rt)
}

/// Takes a file from the first of these seats whose deque has one.
fn take_first<R: Wait>(rt: &R, seats: &mut [Seat], from: usize, to: usize) -> Option<u32>
    requires range { to ≤ length seats.old }
    requires parts { (deque : ℕ) (r : Reach) → slice_get seats.old deque ≡ Some r → 0 < r.share.parts }
    ensures { MatchOption result ((seats.new ≡ seats.old) × WereEmpty from to seats.old) (TookOne seats.old seats.new) }
{
    for deque in from..to {
        match take_at(rt, seats, deque) {
            Some(file) => return Some(file),
            None => {}
        }
    }
    None
}

/// Takes a file from the first seat from this one on, in turn, whose deque has one.
fn take_in_turn<R: Wait>(rt: &R, seats: &mut [Seat], number: usize) -> Option<u32>
    requires range { number ≤ length seats.old }
    requires parts { (deque : ℕ) (r : Reach) → slice_get seats.old deque ≡ Some r → 0 < r.share.parts }
    ensures { MatchOption result ((seats.new ≡ seats.old) × WereEmpty 0 (length seats.old) seats.old) (TookOne seats.old seats.new) }
{
    let jobs = seats.len();
    match take_first(rt, seats, number, jobs) {
        Some(file) => Some(file),
        None => take_first(rt, seats, 0, number),
    }
}

impl Hand {
    /// A hand with these seats.
    pub(crate) fn new(files: u32, number: usize, seats: Vec<Seat>) -> Hand
        requires { IsHand files number seats.items }
        ensures { result ≡ holding files number seats.items }
    {
        Hand {
            files,
            number,
            seats,
        }
    }

    /// Takes a file: the first one on its own deque, or else on the first deque after its own, in turn, that has one. It takes no
    /// memory. Where another taker was ahead it tries again, so it may wait.
    ///
    /// A file is one that was dealt and that no other call takes: what the hands took from a deque and what is left on it is what was
    /// dealt to it. `None` comes only where each deque was empty at a moment of this call.
    pub fn take<R: Wait>(&mut self, rt: &R) -> Option<u32>
        ensures { MatchOption result ((self.new ≡ self.old) × AllWereEmpty self.old) (Took self.old self.new) }
    {
        take_in_turn(rt, self.seats.as_mut_slice(), self.number)
    }
}
