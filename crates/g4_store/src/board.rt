// The words, with the plan by which they lie.
ghost use Rattle.std.specs.Prelude.{◌≡◌, ◌≢◌, ℕ, ◌+◌, ◌*◌, ◌<◌, ◌≤◌, ◌^◌};
ghost use Rattle.g4_store.specs.Words.{cell_at, start_at, size_of};
ghost use Rattle.g4_store.specs.Found.{Decodes, DecodesStart, IsFilledAt};

use crate::automaton::{Automaton, Plan};
use crate::view::{Desk, Home, Words};
use std::marker::{Model, PhantomData};

/// What a cell was found to hold: nothing, a row with its mark, or an end.
#[derive(Clone, Copy)]
pub enum Found {
    Nothing,
    Row(usize, u64),
    End(u64),
}

/// What the word of a cell says.
pub fn decode(found: u64) -> Found
    ensures { Decodes found result }
{
    if found == 0 {
        return Found::Nothing;
    }
    if found % 2 == 1 {
        return Found::End(found / 2);
    }
    let place = found / 2 - 1;
    Found::Row((place % 65536) as usize, place / 65536)
}

/// Whether a word is filled.
pub(crate) fn is_filled(found: u64) -> bool
    ensures { IsFilledAt found result }
{
    found != 0
}

/// The row that the word of a start names.
pub(crate) fn decode_start(found: u64) -> Option<usize>
    ensures { DecodesStart found result }
{
    if found == 0 {
        None
    } else {
        Some((found - 1) as usize)
    }
}

#[derive(Drop)]
pub struct Board<N: Drop, C, A: Automaton<N, C>, B: Home<N>> {
    pub(crate) plan: Plan<N>,
    pub(crate) table: Words<N, C, A>,
    pub(crate) home: PhantomData<B>,
}

impl<N: Drop, C, A: Automaton<N, C>, B: Home<N>> Model for Board<N, C, A, B> {
    ghost use Rattle.std.specs.Prelude.{◌≡◌, ◌<◌, ◌≤◌, ◌^◌};
    ghost use Rattle.g4_store.specs.Words.{size_of};
    ghost use Rattle.g4_store.specs.declared.automaton.Plan.{Plan};

    ghost Value = { Plan N };

    ghost view = { λ b. b.plan };

    ghost invariant = { λ b. (b.table.shared.table_id ≡ B.table) × (b.table.shared.key ≡ b.plan) × (b.plan ≡ B.plan)
        × (size_of b.plan ≡ B.table.words) × (b.table.shared.table_id.slots ≡ 0) × (size_of b.plan < 2 ^ 32) × (0 < size_of b.plan)
        × (b.plan.rows ≤ 65536) };
}

impl<N: Drop, C, A: Automaton<N, C>, B: Home<N>> Board<N, C, A, B> {
    pub(crate) fn desk(&self) -> &Desk<N, C, A>
        ensures { (result.now.table_id ≡ B.table) × (result.now.key ≡ B.plan)
            × (size_of B.plan ≡ result.now.table_id.words) × (0 < result.now.table_id.words) × (result.now.table_id.slots ≡ 0) }
    {
        &self.table.shared
    }

    /// The network.
    pub(crate) fn net(&self) -> &N
        ensures { result.now ≡ B.plan.net }
    {
        &self.plan.net
    }

    pub fn rows(&self) -> usize
        ensures { (result ≡ B.plan.rows) × (result ≤ 65536) }
    {
        self.plan.rows
    }

    /// How many words there are.
    pub fn size(&self) -> usize
        ensures { (result ≡ size_of B.plan) × (result ≡ B.table.words) }
    {
        self.plan.rows + (self.plan.rows * self.plan.columns + self.plan.starts)
    }

    /// The word of a start.
    pub(crate) fn start_word(&self, start: usize) -> usize
        requires { start < B.plan.starts }
        ensures { (result ≡ start_at B.plan start) × (result < B.table.words) }
    {
        self.plan.rows + (self.plan.rows * self.plan.columns + start)
    }

    /// The parent word of a row that a start has.
    pub(crate) fn start_parent(&self, start: usize) -> u64
        requires { start < B.plan.starts }
        ensures { result ≡ 1 + start }
    {
        let _ = &self.plan;
        1 + start as u64
    }

    /// The word that names the parent and the column of a row.
    pub(crate) fn parent_word(&self, row: usize, column: usize) -> u64
        requires { (row < B.plan.rows) × (column < B.plan.columns) }
        ensures { result ≡ 1 + (B.plan.starts + (row * B.plan.columns + column)) }
    {
        1 + (self.plan.starts + (row * self.plan.columns + column)) as u64
    }

    /// The word of a cell.
    pub(crate) fn cell_word(&self, row: usize, column: usize) -> usize
        requires { (row < B.plan.rows) × (column < B.plan.columns) }
        ensures { (result ≡ cell_at B.plan row column) × (result < B.table.words) }
    {
        self.plan.rows + (row * self.plan.columns + column)
    }
}
