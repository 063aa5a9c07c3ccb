// Learning a path.
ghost use Rattle.std.specs.Prelude.{◌≡◌, ◌≢◌, ◌⊎◌, ◌↔◌, ℕ, ◌+◌, ◌<◌, ◌≤◌, true, false, [], ◌++◌, ◌∷◌, List, length, IfOk, IfSome, IfNone, IsTrue};
ghost use mathlib.Core.Option.{some};
ghost use lib.ListN.{get_elem?};
ghost use Rattle.g4_store.specs.Numbers.{Among, has};
ghost use Rattle.g4_store.specs.declared.automaton.Led.TheVariants.{Row, End};
ghost use Rattle.g4_store.specs.declared.automaton.Fact.{Fact};
ghost use Rattle.g4_store.specs.declared.automaton.Fact.TheVariants.{Start, Cell};
ghost use Rattle.g4_store.specs.declared.view.View.{View};
ghost use Rattle.g4_store.specs.Views.{IsIdle, IsPassView, NoStart, NoCell, without_guest};
ghost use Rattle.g4_store.specs.Known.{AreRows};
ghost use Rattle.g4_store.specs.Paths.{InRows, Takes, TakesOr, TakesEnd, IsAt, Followed, Onward, LearnedBy, Fills, Sent};
ghost use Rattle.g4_store.specs.Paths.{BeginsAt, HasKnownRow, IsKnownRow, LeadsOn, cells_of, first_facts};

use crate::automaton::{Automaton, Content, Led};
use crate::bench::{Bench, Progress};
use crate::board::Board;
use crate::path::{Looked, Origin};
use crate::view::{Home, Place};
use std::alloc::{AllocError, Global};
use std::collections::VecDeque;

impl<N: Drop, C: Content + Drop, B: Home<N>> Bench<N, C, B> {
    /// Learns an empty start with a new row.
    fn add_start<A: Automaton<N, C>>(
        &mut self,
        board: &Board<N, C, A, B>,
        start: usize,
        content: C,
    ) -> usize
        requires start { (start < B.plan.starts) × A.starts B.plan.net start content }
        requires fresh { InRows self.old.rows content → ⊥ }
        requires empty { NoStart start self.old.facts }
        requires room { (length self.old.rows < B.plan.rows) × (B.plan.rows ≤ 65536) }
        requires guest { (self.old.loose ≡ []) × ((n : ℕ) × (has n self.old.holds ≡ true)) }
        ensures { Takes B.plan.rows (Start start content) content result self.old self.new }
    {
        let target = self.len();
        self.grow_start(board, start, content);
        self.fill_start(board, start, target);
        target
    }

    /// Learns an empty start: the number of its row, or `None` where there is no room for it.
    fn place_start<A: Automaton<N, C>>(
        &mut self,
        board: &Board<N, C, A, B>,
        start: usize,
        content: C,
    ) -> Option<usize>
        requires start { (start < B.plan.starts) × A.starts B.plan.net start content }
        requires empty { NoStart start self.old.facts }
        requires guest { (self.old.loose ≡ []) × ((n : ℕ) × (has n self.old.holds ≡ true)) }
        ensures { TakesOr B.plan.rows (Start start content) content self.old self.new result }
    {
        let most = board.rows();
        match self.find(&content) {
            Some(target) => {
                self.fill_start(board, start, target);
                Some(target)
            }
            None => {
                if self.len() == most {
                    return None;
                }
                Some(self.add_start(board, start, content))
            }
        }
    }

    /// Learns a start: the number of its row, or `None` where there is no room for it.
    fn begin<A: Automaton<N, C>>(
        &mut self,
        board: &Board<N, C, A, B>,
        start: usize,
        content: C,
    ) -> Option<usize>
        requires start { (start < B.plan.starts) × A.starts B.plan.net start content }
        requires guest { (self.old.loose ≡ []) × ((n : ℕ) × (has n self.old.holds ≡ true)) }
        ensures { TakesOr B.plan.rows (Start start content) content self.old self.new result }
    {
        if self.reread_start(board, start) {
            return self.find(&content);
        }
        self.place_start(board, start, content)
    }

    /// Learns an empty cell with a new row.
    fn add_row<A: Automaton<N, C>>(
        &mut self,
        board: &Board<N, C, A, B>,
        row: usize,
        column: usize,
        mark: u32,
        content: C,
    ) -> usize
        requires place { (row < B.plan.rows) × (column < B.plan.columns) }
        requires row { (x : C) × (get_elem? self.old.rows row ≡ some x) × A.leads B.plan.net x column (Row content mark) }
        requires fresh { InRows self.old.rows content → ⊥ }
        requires empty { (x : C) → get_elem? self.old.rows row ≡ some x → NoCell x column self.old.facts }
        requires room { (length self.old.rows < B.plan.rows) × (B.plan.rows ≤ 65536) }
        requires guest { (self.old.loose ≡ []) × ((n : ℕ) × (has n self.old.holds ≡ true)) }
        ensures { (x : C) → get_elem? self.old.rows row ≡ some x
            → Takes B.plan.rows (Cell x column (Row content mark)) content result self.old self.new }
    {
        let target = self.len();
        self.grow_row(board, row, column, mark, content);
        self.fill_row(board, row, column, mark, target);
        target
    }

    /// Learns an empty cell that leads to a row: the number of that row, or `None` where there is no room for it.
    fn place_row<A: Automaton<N, C>>(
        &mut self,
        board: &Board<N, C, A, B>,
        row: usize,
        column: usize,
        mark: u32,
        content: C,
    ) -> Option<usize>
        requires place { (row < B.plan.rows) × (column < B.plan.columns) }
        requires row { (x : C) × (get_elem? self.old.rows row ≡ some x) × A.leads B.plan.net x column (Row content mark) }
        requires empty { (x : C) → get_elem? self.old.rows row ≡ some x → NoCell x column self.old.facts }
        requires guest { (self.old.loose ≡ []) × ((n : ℕ) × (has n self.old.holds ≡ true)) }
        ensures { (x : C) → get_elem? self.old.rows row ≡ some x
            → TakesOr B.plan.rows (Cell x column (Row content mark)) content self.old self.new result }
    {
        let most = board.rows();
        match self.find(&content) {
            Some(target) => {
                self.fill_row(board, row, column, mark, target);
                Some(target)
            }
            None => {
                if self.len() == most {
                    return None;
                }
                Some(self.add_row(board, row, column, mark, content))
            }
        }
    }

    /// Learns a cell that leads to a row: the number of that row, or `None` where there is no room for it.
    fn learn_row<A: Automaton<N, C>>(
        &mut self,
        board: &Board<N, C, A, B>,
        row: usize,
        column: usize,
        mark: u32,
        content: C,
    ) -> Option<usize>
        requires place { column < B.plan.columns }
        requires row { (x : C) × (get_elem? self.old.rows row ≡ some x) × A.leads B.plan.net x column (Row content mark) }
        requires guest { (self.old.loose ≡ []) × ((n : ℕ) × (has n self.old.holds ≡ true)) }
        ensures { (x : C) → get_elem? self.old.rows row ≡ some x
            → TakesOr B.plan.rows (Cell x column (Row content mark)) content self.old self.new result }
    {
        self.has_row(row);
        if self.reread_cell(board, row, column) {
            return self.find(&content);
        }
        self.place_row(board, row, column, mark, content)
    }

    /// Learns a cell that leads to no row.
    fn learn_end<A: Automaton<N, C>>(
        &mut self,
        board: &Board<N, C, A, B>,
        row: usize,
        column: usize,
        code: u32,
    )
        requires place { column < B.plan.columns }
        requires row { (x : C) × (get_elem? self.old.rows row ≡ some x) × A.leads B.plan.net x column (End code) }
        requires guest { (self.old.loose ≡ []) × ((n : ℕ) × (has n self.old.holds ≡ true)) }
        ensures { (x : C) → get_elem? self.old.rows row ≡ some x → TakesEnd (Cell x column (End code)) self.old self.new }
    {
        self.has_row(row);
        if !self.reread_cell(board, row, column) {
            self.fill_end(board, row, column, code);
        }
    }

    /// Learns what was looked at next.
    fn step<A: Automaton<N, C>>(
        &mut self,
        board: &Board<N, C, A, B>,
        progress: Progress,
        looked: Looked<C>,
    ) -> Progress
        requires column { looked.column < B.plan.columns }
        requires guest { (self.old.loose ≡ []) × ((n : ℕ) × (has n self.old.holds ≡ true)) }
        requires at { (x : C) × IsAt self.old progress.full x progress.at × A.leads B.plan.net x looked.column looked.led }
        ensures { (x : C) → IsAt self.old progress.full x progress.at → (b0 : View C) (done : List (Fact C))
            → Followed B.plan.rows done b0 self.old progress.full
            → Followed B.plan.rows (done ++ Cell x looked.column looked.led ∷ []) b0 self.new result.full
            × Onward looked.led (λ y. IsAt self.new result.full y result.at) }
    {
        let Looked { column, led } = looked;
        let Progress { at, full } = progress;
        match led {
            Led::Row(content, mark) => match at {
                Some(row) => match self.learn_row(board, row, column as usize, mark, content) {
                    Some(target) => Progress {
                        at: Some(target),
                        full,
                    },
                    None => Progress {
                        at: None,
                        full: true,
                    },
                },
                None => Progress {
                    at: self.find(&content),
                    full,
                },
            },
            Led::End(code) => match at {
                Some(row) => {
                    self.learn_end(board, row, column as usize, code);
                    progress
                }
                None => progress,
            },
        }
    }

    /// Where learning begins, whose start is learned if it has one.
    fn begin_at<A: Automaton<N, C>>(
        &mut self,
        board: &Board<N, C, A, B>,
        origin: Origin<C>,
    ) -> Progress
        requires origin { (x : C) × BeginsAt A.starts B.plan (HasKnownRow self.old) origin x }
        requires guest { (self.old.loose ≡ []) × ((n : ℕ) × (has n self.old.holds ≡ true)) }
        ensures { (x : C) → BeginsAt A.starts B.plan (HasKnownRow self.old) origin x
            → Followed B.plan.rows (first_facts origin x) self.old self.new result.full × IsAt self.new result.full x result.at }
    {
        match origin {
            Origin::AtStart(start, content) => {
                Progress::of(self.begin(board, start as usize, content))
            }
            Origin::AtRow(row) => Progress::of(Some(row)),
        }
    }

    /// Learns what was looked at from there on, as far as there is room. The result says whether there was none for some row.
    fn follow<A: Automaton<N, C>>(
        &mut self,
        board: &Board<N, C, A, B>,
        origin: Origin<C>,
        looked: VecDeque<Looked<C>>,
    ) -> bool
        requires path { (x : C) × BeginsAt A.starts B.plan (HasKnownRow self.old) origin x
            × LeadsOn A.starts A.leads B.plan x looked.items }
        requires guest { (self.old.loose ≡ []) × ((n : ℕ) × (has n self.old.holds ≡ true)) }
        ensures { (x : C) → BeginsAt A.starts B.plan (HasKnownRow self.old) origin x
            → Followed B.plan.rows (first_facts origin x ++ cells_of x looked.items) self.old self.new result }
    {
        let mut rest = looked;
        let mut progress = self.begin_at(board, origin);
        while let Some(next) = rest.pop_front() {
            progress = self.step(board, progress, next);
        }
        progress.full
    }

    /// The guest goes, and is told all rows where there was no room.
    fn send<A: Automaton<N, C>>(&mut self, board: &Board<N, C, A, B>, full: bool) -> Place<C>
        requires { self.old.loose ≡ [] }
        ensures seat { (result.table_id ≡ B.table) × (result.me.1 ≡ []) }
        ensures guest { Sent full self.old result.me.0 }
        ensures bench { self.new ≡ without_guest self.old }
    {
        if full {
            self.send_told(board)
        } else {
            self.send_off(board)
        }
    }

    /// Learns for a guest, who comes and goes, what was looked at from a start or from a row that the guest knows.
    pub fn learn_for<A: Automaton<N, C>>(
        &mut self,
        board: &Board<N, C, A, B>,
        guest: Place<C>,
        origin: Origin<C>,
        looked: VecDeque<Looked<C>>,
    ) -> (Place<C>, bool)
        requires idle { IsIdle self.old }
        requires guest { (guest.table_id ≡ B.table) × (guest.me.1 ≡ []) × (guest.me.0.spent ≡ false)
            × ((n : ℕ) × (has n guest.me.0.holds ≡ true)) }
        requires path { (x : C) × BeginsAt A.starts B.plan (IsKnownRow guest.me.0) origin x
            × LeadsOn A.starts A.leads B.plan x looked.items }
        ensures idle { IsIdle self.new }
        ensures seat { (result.0.table_id ≡ B.table) × (result.0.me.1 ≡ []) × (IsPassView result.0.me.0) }
        ensures rows { AreRows B.plan.rows result.0.me.0.known }
        ensures learned { (x : C) → BeginsAt A.starts B.plan (IsKnownRow guest.me.0) origin x
            → LearnedBy B.plan.rows (first_facts origin x ++ cells_of x looked.items) guest.me.0 result.0.me.0 result.1 }
        ensures fills { (x : C) → BeginsAt A.starts B.plan (IsKnownRow guest.me.0) origin x
            → Fills (first_facts origin x ++ cells_of x looked.items) guest.me.0 result.0.me.0 self.old self.new }
    {
        self.host(board, guest);
        self.check(board);
        let full = self.follow(board, origin, looked);
        self.check(board);
        let guest = self.send(board, full);
        (guest, full)
    }

    /// A copy of the content of a row that a guest knows, who comes and goes as it was.
    pub fn copy_for<A: Automaton<N, C>>(
        &mut self,
        alloc: Global,
        board: &Board<N, C, A, B>,
        guest: Place<C>,
        row: usize,
    ) -> (Place<C>, Result<C, AllocError>)
        requires idle { IsIdle self.old }
        requires guest { (guest.table_id ≡ B.table) × (guest.me.1 ≡ []) × IsPassView guest.me.0
            × ((n : ℕ) × (has n guest.me.0.holds ≡ true)) }
        requires row { (x : C) × Among (row, x) guest.me.0.known }
        ensures idle { self.new ≡ self.old }
        ensures seat { (result.0.table_id ≡ B.table) × (result.0.me ≡ guest.me) }
        ensures content { (x : C) → Among (row, x) guest.me.0.known → IfOk result.1 (λ made. made ≡ x) }
    {
        self.host(board, guest);
        self.check(board);
        let content = self.copy_row(alloc, row);
        let guest = self.send_off(board);
        (guest, content)
    }
}
