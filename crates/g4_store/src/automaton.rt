// Automata over contents.
ghost use Rattle.std.specs.Prelude.{◌≡◌, ◌↔◌, ℕ, IfOk, IsTrue};

use std::alloc::{AllocError, Global};

/// What a column leads to: a row with a mark, or an end without a row.
#[derive(Drop)]
pub enum Led<C> {
    Row(C, u32),
    End(u32),
}

/// A start or a cell of the automaton that is filled.
#[derive(Drop)]
pub enum Fact<C> {
    Start(u32, C),
    Cell(C, u32, Led<C>),
}

/// A content that can be compared. Equal contents have one hash.
pub trait Content: Sized {
    ghost use Rattle.std.specs.Prelude.{ℕ};

    ghost code: { Self → ℕ };

    fn hash(&self) -> u64
        ensures { result ≡ code self.now };

    fn same(&self, other: &Self) -> bool
        ensures { IsTrue result ↔ (self.now ≡ other.now) };

    /// A copy, where there is memory for it.
    fn copy(&self, alloc: Global) -> Result<Self, AllocError>
        ensures { IfOk result (λ made. made ≡ self.now) };
}

/// An automaton of a network: which content each start has, and where a content leads.
pub trait Automaton<N, C> {
    ghost use Rattle.std.specs.Prelude.{◌≡◌, ℕ};
    ghost use Rattle.g4_store.specs.declared.automaton.Led.{Led};

    ghost starts: { N → ℕ → C → Type 0 };

    ghost leads: { N → C → ℕ → Led C → Type 0 };

    ghost one_start: { (net : N) (i : ℕ) (x y : C) → starts net i x → starts net i y → x ≡ y };

    ghost one_led: { (net : N) (x : C) (s : ℕ) (a b : Led C) → leads net x s a → leads net x s b → a ≡ b };
}

/// The network and the sizes.
#[derive(Drop)]
pub struct Plan<N> {
    pub rows: usize,
    pub columns: usize,
    pub starts: usize,
    pub net: N,
}
