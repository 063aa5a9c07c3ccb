// What lies under the learner's lock.
ghost use Rattle.std.specs.Prelude.{◌≡◌, ◌++◌, ℕ, true, false, [], IfOk, List};
ghost use Rattle.g4_store.specs.Known.{KnowsRows};
ghost use Rattle.g4_store.specs.Numbers.{Among, has};
ghost use Rattle.g4_store.specs.Paths.{BeginsAt, Fills, IsKnownRow, LeadsOn, cells_of, first_facts};
ghost use Rattle.g4_store.specs.Learned.{IsLearned};

use crate::automaton::{Automaton, Content};
use crate::bench::Bench;
use crate::board::Board;
use crate::pass::Pass;
use crate::path::{Looked, Origin};
use crate::view::{Home, Leaving};
use std::alloc::{AllocError, Global};
use std::collections::VecDeque;
use std::marker::Model;

/// Whether all was learned, or there was no room for some row.
#[derive(Clone, Copy, Debug, PartialEq, Eq)]
pub enum Learned {
    All,
    Full,
}

/// What lies under the learner's lock: the bench without a guest. Contracts see its view.
#[derive(Drop)]
pub struct Book<N, C: Content + Drop, B: Home<N>> {
    pub(crate) bench: Bench<N, C, B>,
}

impl<N, C: Content + Drop, B: Home<N>> Model for Book<N, C, B> {
    ghost use Rattle.g4_store.specs.Views.{IsIdle};
    ghost use Rattle.g4_store.specs.declared.view.View.{View};

    ghost Value = { View C };

    ghost view = { λ b. b.bench };

    ghost invariant = { λ b. IsIdle b.bench };
}

impl<N: Drop, C: Content + Drop, B: Home<N>> Book<N, C, B> {
    /// Learns what was looked at from a start or from a row that the pass knows; the pass has then seen it as far as its rows are known.
    pub fn learn<A: Automaton<N, C>>(
        &mut self,
        board: &Board<N, C, A, B>,
        pass: &mut Pass<N, C, B>,
        origin: Origin<C>,
        looked: VecDeque<Looked<C>>,
    ) -> Learned
        requires { (x : C) × BeginsAt A.starts B.plan (IsKnownRow pass.old.0) origin x
            × LeadsOn A.starts A.leads B.plan x looked.items }
        ensures learned { (x : C) → BeginsAt A.starts B.plan (IsKnownRow pass.old.0) origin x
            → IsLearned B.plan.rows (first_facts origin x ++ cells_of x looked.items) pass.old pass.new result }
        ensures fills { (x : C) → BeginsAt A.starts B.plan (IsKnownRow pass.old.0) origin x
            → Fills (first_facts origin x ++ cells_of x looked.items) pass.old.0 pass.new.0 self.old self.new }
        ensures rows { KnowsRows B.plan.rows pass.new }
    {
        let guest = board.desk().split_seat::<Leaving>(&mut pass.seat);
        let (seat, full) = self.bench.learn_for(board, guest, origin, looked);
        pass.seat = seat;
        if full {
            pass.full = true;
            return Learned::Full;
        }
        Learned::All
    }

    /// A copy of the content of a row that the pass knows.
    ///
    /// # Errors
    /// No memory.
    pub fn copy_row<A: Automaton<N, C>>(
        &mut self,
        alloc: Global,
        board: &Board<N, C, A, B>,
        pass: &mut Pass<N, C, B>,
        row: usize,
    ) -> Result<C, AllocError>
        requires { (x : C) × Among (row, x) pass.old.0.known }
        ensures content { (x : C) → Among (row, x) pass.old.0.known → IfOk result (λ made. made ≡ x) }
        ensures same { (pass.new ≡ pass.old) × (self.new ≡ self.old) }
    {
        let guest = board.desk().split_seat::<Leaving>(&mut pass.seat);
        let (seat, content) = self.bench.copy_for(alloc, board, guest, row);
        pass.seat = seat;
        content
    }
}
