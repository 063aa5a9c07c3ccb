// What one thread has seen.
ghost use Rattle.std.specs.Prelude.{◌≡◌, ◌≢◌, ℕ, ◌<◌, true, false, [], Bool};
ghost use Rattle.g4_store.specs.Known.{KnowsRows};
ghost use Rattle.g4_store.specs.Numbers.{Among, has};
ghost use Rattle.g4_store.specs.Found.{StartFound, CellFound};

use crate::automaton::Automaton;
use crate::board::{Board, Found, decode, decode_start};
use crate::view::{Home, Place, ProbeCell, ProbeStart};
use std::marker::{Model, PhantomData};

/// What one thread has seen. Contracts see its view, and whether a learn of it answered Full.
#[derive(Drop)]
pub struct Pass<N, C, B: Home<N>> {
    pub(crate) seat: Place<C>,
    pub(crate) full: bool,
    pub(crate) home: PhantomData<(N, B)>,
}

impl<N, C, B: Home<N>> Model for Pass<N, C, B> {
    ghost use Rattle.std.specs.Prelude.{◌≡◌, ℕ, Bool, true, []};
    ghost use Rattle.g4_store.specs.Known.{KnowsRows};
    ghost use Rattle.g4_store.specs.Numbers.{has};
    ghost use Rattle.g4_store.specs.Views.{IsPassView};
    ghost use Rattle.g4_store.specs.declared.view.View.{View};

    ghost Value = { View C × Bool };

    ghost view = { λ p. (p.seat.me.0, p.full) };

    ghost invariant = { λ p. (p.seat.table_id ≡ B.table) × (p.seat.me.1 ≡ []) × IsPassView p.seat.me.0
        × ((n : ℕ) × (has n p.seat.me.0.holds ≡ true)) × KnowsRows B.plan.rows (p.seat.me.0, p.full) };
}

impl<N: Drop, C, B: Home<N>> Pass<N, C, B> {
    /// Whether a learn of this pass, or of one that it met, answered Full.
    pub fn was_full(&self) -> bool
        ensures { result ≡ self.now.1 }
    {
        self.full
    }

    /// Loads a start: its row, or `None` where the word that was read held 0.
    pub fn read_start<A: Automaton<N, C>>(
        &mut self,
        board: &Board<N, C, A, B>,
        start: usize,
    ) -> Option<usize>
        requires { start < B.plan.starts }
        ensures found { StartFound A.starts A.leads B.plan start self.old.0 self.new.0 result }
        ensures rows { KnowsRows B.plan.rows self.new }
        ensures full { self.new.1 ≡ self.old.1 }
    {
        let word = board.start_word(start);
        let found = board
            .desk()
            .load::<ProbeStart<N, A, B>>(&mut self.seat, word);
        decode_start(found)
    }

    /// Loads the cell of a row that the pass knows.
    pub fn read_cell<A: Automaton<N, C>>(
        &mut self,
        board: &Board<N, C, A, B>,
        row: usize,
        column: usize,
    ) -> Found
        requires row { (x : C) × Among (row, x) self.old.0.known }
        requires place { (row < B.plan.rows) × (column < B.plan.columns) }
        ensures found { (x : C) → Among (row, x) self.old.0.known
            → CellFound A.starts A.leads B.plan row x column self.old.0 self.new.0 result }
        ensures rows { KnowsRows B.plan.rows self.new }
        ensures full { self.new.1 ≡ self.old.1 }
    {
        let word = board.cell_word(row, column);
        let found = board
            .desk()
            .load::<ProbeCell<N, A, B>>(&mut self.seat, word);
        decode(found)
    }
}
