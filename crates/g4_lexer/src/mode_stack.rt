// The modes that are pushed.
ghost use Rattle.std.specs.Prelude.{◌≡◌, ◌∷◌, [], IfOk, OnErr, OnOk, MatchOption};

use std::alloc::{AllocError, Global};
use std::marker::Model;

/// The modes that are pushed, which contracts see as their list, the last of them first.
#[derive(Drop)]
pub(crate) struct ModeStack {
    modes: Vec<u32>,
}

impl Model for ModeStack {
    ghost use Rattle.std.specs.Prelude.{List, ℕ, reverse};

    ghost Value = { List ℕ };

    ghost view = { λ s. reverse s.modes.items };
}

impl ModeStack {
    /// No modes.
    pub fn new(alloc: Global) -> ModeStack
        ensures { result ≡ [] }
    {
        ModeStack {
            modes: Vec::new(alloc),
        }
    }

    /// Pushes a mode.
    pub fn push(&mut self, mode: u32) -> Result<(), AllocError>
        ensures { OnOk result (self.new ≡ mode ∷ self.old) }
    {
        self.modes.push(mode)?;
        Ok(())
    }

    /// Takes the mode that was pushed last.
    pub fn pop(&mut self) -> Option<u32>
        ensures { MatchOption result (self.old ≡ []) (λ mode. self.old ≡ mode ∷ self.new) }
    {
        self.modes.pop()
    }
}
