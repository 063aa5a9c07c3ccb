// A deque with the end that belongs to one hand.
ghost use Rattle.std.specs.Prelude.{◌≡◌, ◌≤◌, ◌<◌, ◌-◌, ◌%◌, ◌∷◌, ◌++◌, [], true, false, IfOk, OnOk, MatchOption};
ghost use Rattle.g4_hands.specs.Reaches.{having, reach};
ghost use Rattle.g4_hands.specs.Shares.{IsFirst, WasEmpty, all_parts, share};

use crate::share::{Cut, Owner, Put, Take};
use crate::thief::Thief;
use std::alloc::{AllocError, Global};
use std::marker::Model;

/// A deque of files. Contracts see what its own end knows of it.
#[derive(Drop)]
pub struct Pile {
    owner: Owner,
}

impl Model for Pile {
    ghost use Rattle.std.specs.Prelude.{◌≡◌, true};
    ghost use Rattle.crossbeam_deque.specs.Handles.{worker_deque, worker_flavor, worker_view};
    ghost use Rattle.g4_hands.specs.Reaches.{Reach, reach};

    ghost Value = { Reach };

    ghost view = { λ p. reach true (worker_deque p.owner) (worker_view p.owner) };

    ghost invariant = { λ p. worker_flavor p.owner ≡ 0 };
}

impl Pile {
    /// An empty deque with room for so many files, of which only its own end knows.
    pub fn new(alloc: Global, room: usize) -> Result<Pile, AllocError>
        ensures { IfOk result (λ p. (p.own ≡ true) × (p.share ≡ share all_parts [] [])) }
    {
        let owner = Owner::fifo_as(alloc, room)?;
        Ok(Pile { owner })
    }

    /// Puts a file behind the others.
    ///
    /// # Errors
    /// No memory.
    pub fn push(&mut self, file: u32) -> Result<(), AllocError>
        requires { self.old.share.parts ≡ all_parts }
        ensures { OnOk result
            (self.new ≡ reach self.old.own self.old.deque (share all_parts (self.old.share.dealt ++ file ∷ []) self.old.share.taken)) }
    {
        self.owner.push_as::<Put>(file).map_err(|_| AllocError)
    }

    /// Another end, for a hand that steals.
    pub fn thief(&mut self) -> Result<Thief, AllocError>
        requires { 1 < self.old.share.parts }
        ensures thief { IfOk result (λ t. t ≡ reach false self.old.deque (share 1 self.old.share.dealt [])) }
        ensures less { OnOk result
            (self.new ≡ reach self.old.own self.old.deque (share (self.old.share.parts - 1) self.old.share.dealt self.old.share.taken)) }
    {
        let end = self.owner.stealer()?;
        let place = self.owner.another::<Cut>();
        Ok(Thief::new(end, place))
    }

    /// Takes the first file that is left.
    pub fn take(&mut self) -> Option<u32>
        requires { 0 < self.old.share.parts }
        ensures { MatchOption result ((self.new ≡ self.old) × WasEmpty self.old.share)
            (λ k. (self.new ≡ having self.old k) × IsFirst self.old.share (k ∷ [])) }
    {
        self.owner.pop_as::<Take>()
    }
}
