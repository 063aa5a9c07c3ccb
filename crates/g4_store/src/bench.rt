// The rows, and the seat that alone fills words.
ghost use Rattle.std.specs.Prelude.{◌≡◌, ◌≢◌, ◌⊎◌, ◌↔◌, ℕ, ◌+◌, ◌<◌, ◌≤◌, true, false, [], ◌++◌, ◌∷◌, length, IfOk, IfSome, IfNone, IsTrue, vec_len, vec_capacity, is_none};
ghost use mathlib.Core.Option.{some};
ghost use lib.ListN.{get_elem?};
ghost use Rattle.g4_store.specs.Numbers.{Among, has};
ghost use Rattle.g4_store.specs.declared.automaton.Led.{Led as LedTo};
ghost use Rattle.g4_store.specs.declared.automaton.Led.TheVariants.{Row, End};
ghost use Rattle.g4_store.specs.declared.automaton.Fact.{Fact};
ghost use Rattle.g4_store.specs.declared.automaton.Fact.TheVariants.{Start, Cell};
ghost use Rattle.g4_store.specs.Views.{NoStart, NoCell, grown, filled, saw, hosting, guest_of, told_guest, without_guest};
ghost use Rattle.g4_store.specs.Found.{StartReread, CellReread};
ghost use Rattle.g4_store.specs.Paths.{InRows, TakesOr, IsAt, Followed, Onward, took};

use crate::automaton::{Automaton, Content};
use crate::board::{Board, is_filled};
use crate::rows::Rows;
use crate::view::{
    Check, FillCell, FillStart, Grow, Home, Place, RereadCell, RereadStart, Telling, Visit,
};
use std::alloc::{AllocError, Global};
use std::marker::{Model, PhantomData};

/// The rows, and the seat that alone fills words. Contracts see the seat's view.
#[derive(Drop)]
pub struct Bench<N, C: Content + Drop, B: Home<N>> {
    pub(crate) seat: Place<C>,
    pub(crate) rows: Rows<C>,
    pub(crate) home: PhantomData<(N, B)>,
}

impl<N, C: Content + Drop, B: Home<N>> Model for Bench<N, C, B> {
    ghost use Rattle.std.specs.Prelude.{◌≡◌, []};
    ghost use Rattle.g4_store.specs.Views.{IsBookOf};
    ghost use Rattle.g4_store.specs.declared.view.View.{View};

    ghost Value = { View C };

    ghost view = { λ b. b.seat.me.0 };

    ghost invariant = { λ b. (b.seat.table_id ≡ B.table) × (b.seat.me.1 ≡ []) × IsBookOf b.rows.0 b.seat.me.0 × (b.rows.1 ≡ B.plan.rows) };
}

/// Where learning is in a path, and whether there was no room for some row of it.
#[derive(Clone, Copy)]
pub struct Progress {
    pub at: Option<usize>,
    pub full: bool,
}

impl Progress {
    pub fn of(at: Option<usize>) -> Progress
        ensures { (result.at ≡ at) × (result.full ≡ is_none at) }
    {
        Progress {
            at,
            full: at.is_none(),
        }
    }
}

impl<N: Drop, C: Content + Drop, B: Home<N>> Bench<N, C, B> {
    /// The number of a row.
    pub fn find(&self, content: &C) -> Option<usize>
        ensures some { IfSome result (λ t. get_elem? self.now.rows t ≡ some content.now) }
        ensures within { IfSome result (λ t. t < B.plan.rows) }
        ensures none { IfNone result (InRows self.now.rows content.now → ⊥) }
    {
        self.rows.find(content)
    }

    /// A copy of the content of a row.
    ///
    /// # Errors
    /// No memory.
    pub fn copy_row(&self, alloc: Global, row: usize) -> Result<C, AllocError>
        requires { (x : C) × (get_elem? self.now.rows row ≡ some x) }
        ensures { (x : C) → get_elem? self.now.rows row ≡ some x → IfOk result (λ made. made ≡ x) }
    {
        self.rows.copy(alloc, row)
    }

    /// What is a row is below the number of rows.
    pub fn has_row(&self, row: usize)
        requires { (x : C) × (get_elem? self.now.rows row ≡ some x) }
        ensures { row < B.plan.rows }
    {
        let _ = self.rows.len();
    }

    pub fn len(&self) -> usize
        ensures { (result ≡ length self.now.rows) × (result ≤ B.plan.rows) }
    {
        self.rows.len()
    }

    /// Whether a start is filled, which the guest has then seen.
    pub fn reread_start<A: Automaton<N, C>>(
        &mut self,
        board: &Board<N, C, A, B>,
        start: usize,
    ) -> bool
        requires { start < B.plan.starts }
        ensures { StartReread A.starts A.leads B.plan start self.old self.new result }
    {
        let word = board.start_word(start);
        let found = board
            .desk()
            .load::<RereadStart<N, A, B>>(&mut self.seat, word);
        is_filled(found)
    }

    /// Whether the cell of a row is filled, which the guest has then seen.
    pub fn reread_cell<A: Automaton<N, C>>(
        &mut self,
        board: &Board<N, C, A, B>,
        row: usize,
        column: usize,
    ) -> bool
        requires row { (x : C) × (get_elem? self.old.rows row ≡ some x) }
        requires place { (row < B.plan.rows) × (column < B.plan.columns) }
        ensures { (x : C) → get_elem? self.old.rows row ≡ some x → CellReread A.starts A.leads B.plan x column self.old self.new result }
    {
        let word = board.cell_word(row, column);
        let found = board
            .desk()
            .load::<RereadCell<N, A, B>>(&mut self.seat, word);
        is_filled(found)
    }

    /// Stores the parent word of a new row, which a start has.
    pub fn grow_start<A: Automaton<N, C>>(
        &mut self,
        board: &Board<N, C, A, B>,
        start: usize,
        content: C,
    )
        requires start { (start < B.plan.starts) × A.starts B.plan.net start content }
        requires fresh { InRows self.old.rows content → ⊥ }
        requires room { length self.old.rows < B.plan.rows }
        requires guest { (self.old.loose ≡ []) × ((n : ℕ) × (has n self.old.holds ≡ true)) }
        ensures { self.new ≡ grown content self.old }
    {
        let word = self.len();
        let parent = board.start_parent(start);
        board
            .desk()
            .store::<Grow<N, A, B>>(&mut self.seat, word, parent);
        self.rows.push(content);
    }

    /// Stores the parent word of a new row, to which a column leads from a row.
    pub fn grow_row<A: Automaton<N, C>>(
        &mut self,
        board: &Board<N, C, A, B>,
        row: usize,
        column: usize,
        mark: u32,
        content: C,
    )
        requires row { (x : C) × (get_elem? self.old.rows row ≡ some x) × A.leads B.plan.net x column (Row content mark) }
        requires place { (row < B.plan.rows) × (column < B.plan.columns) }
        requires fresh { InRows self.old.rows content → ⊥ }
        requires room { length self.old.rows < B.plan.rows }
        requires guest { (self.old.loose ≡ []) × ((n : ℕ) × (has n self.old.holds ≡ true)) }
        ensures { self.new ≡ grown content self.old }
    {
        let word = self.len();
        let parent = board.parent_word(row, column);
        board
            .desk()
            .store::<Grow<N, A, B>>(&mut self.seat, word, parent);
        self.rows.push(content);
    }

    /// Stores a start.
    pub fn fill_start<A: Automaton<N, C>>(
        &mut self,
        board: &Board<N, C, A, B>,
        start: usize,
        target: usize,
    )
        requires place { (start < B.plan.starts) × (target < 65536) }
        requires row { (y : C) × (get_elem? self.old.rows target ≡ some y) × A.starts B.plan.net start y
            × ((z : C) → Among z self.old.loose → y ≡ z) }
        requires empty { NoStart start self.old.facts }
        requires guest { (n : ℕ) × (has n self.old.holds ≡ true) }
        ensures { (y : C) → get_elem? self.old.rows target ≡ some y → self.new ≡ filled (Start start y) ((target, y) ∷ []) self.old }
    {
        let word = board.start_word(start);
        board
            .desk()
            .store::<FillStart<N, A, B>>(&mut self.seat, word, target as u64 + 1);
    }

    /// Stores a cell that names a row.
    pub fn fill_row<A: Automaton<N, C>>(
        &mut self,
        board: &Board<N, C, A, B>,
        row: usize,
        column: usize,
        mark: u32,
        target: usize,
    )
        requires row { (x y : C) × (get_elem? self.old.rows row ≡ some x) × (get_elem? self.old.rows target ≡ some y)
            × A.leads B.plan.net x column (Row y mark) × ((z : C) → Among z self.old.loose → y ≡ z) }
        requires place { (row < B.plan.rows) × (column < B.plan.columns) × (target < 65536) }
        requires empty { (x : C) → get_elem? self.old.rows row ≡ some x → NoCell x column self.old.facts }
        requires guest { (n : ℕ) × (has n self.old.holds ≡ true) }
        ensures { (x y : C) → get_elem? self.old.rows row ≡ some x → get_elem? self.old.rows target ≡ some y
            → self.new ≡ filled (Cell x column (Row y mark)) ((target, y) ∷ []) self.old }
    {
        let word = board.cell_word(row, column);
        board.desk().store::<FillCell<N, A, B>>(
            &mut self.seat,
            word,
            131072 * mark as u64 + (2 * target as u64 + 2),
        );
    }

    /// Stores a cell that names no row.
    pub fn fill_end<A: Automaton<N, C>>(
        &mut self,
        board: &Board<N, C, A, B>,
        row: usize,
        column: usize,
        code: u32,
    )
        requires row { (x : C) × (get_elem? self.old.rows row ≡ some x) × A.leads B.plan.net x column (End code) }
        requires place { (row < B.plan.rows) × (column < B.plan.columns) }
        requires empty { (x : C) → get_elem? self.old.rows row ≡ some x → NoCell x column self.old.facts }
        requires guest { (self.old.loose ≡ []) × ((n : ℕ) × (has n self.old.holds ≡ true)) }
        ensures { (x : C) → get_elem? self.old.rows row ≡ some x → self.new ≡ filled (Cell x column (End code)) [] self.old }
    {
        let word = board.cell_word(row, column);
        board
            .desk()
            .store::<FillCell<N, A, B>>(&mut self.seat, word, 2 * code as u64 + 1);
    }

    /// A load that tells what the rule says of the rows.
    pub fn check<A: Automaton<N, C>>(&mut self, board: &Board<N, C, A, B>)
        ensures same { self.new ≡ self.old }
        ensures known { (t : ℕ) (y : C) → Among (t, y) self.old.known → get_elem? self.old.rows t ≡ some y }
        ensures differ { (r q : ℕ) (x : C) → get_elem? self.old.rows r ≡ some x → get_elem? self.old.rows q ≡ some x → r ≡ q }
        ensures filled { (f : Fact C) → Among f self.old.seen → Among f self.old.facts }
        ensures room { length self.old.rows ≤ B.plan.rows }
    {
        board.desk().load::<Check<N, A, B>>(&mut self.seat, 0);
    }

    /// The guest comes, with what it has seen.
    pub fn host<A: Automaton<N, C>>(&mut self, board: &Board<N, C, A, B>, guest: Place<C>)
        requires guest { (guest.table_id ≡ B.table) × (guest.me.1 ≡ []) × (guest.me.0.spent ≡ false) }
        requires tight { self.old.loose ≡ [] }
        ensures { self.new ≡ hosting self.old guest.me.0 }
    {
        board.desk().join_seat::<Visit>(&mut self.seat, guest);
    }

    /// The guest goes.
    pub fn send_off<A: Automaton<N, C>>(&mut self, board: &Board<N, C, A, B>) -> Place<C>
        requires { self.old.loose ≡ [] }
        ensures guest { (result.table_id ≡ B.table) × (result.me ≡ (guest_of self.old, [])) }
        ensures bench { self.new ≡ without_guest self.old }
    {
        board.desk().split_seat::<Visit>(&mut self.seat)
    }

    /// The guest goes, and has been told all rows.
    pub fn send_told<A: Automaton<N, C>>(&mut self, board: &Board<N, C, A, B>) -> Place<C>
        requires { self.old.loose ≡ [] }
        ensures guest { (result.table_id ≡ B.table) × (result.me ≡ (told_guest self.old, [])) }
        ensures bench { self.new ≡ without_guest self.old }
    {
        board.desk().split_seat::<Telling>(&mut self.seat)
    }
}
