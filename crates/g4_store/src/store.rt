// The store that all threads share.
ghost use Rattle.std.specs.Prelude.{◌≡◌, ◌≢◌, ℕ, ◌+◌, ◌<◌, ◌≤◌, ◌^◌, true, false, [], ◌∷◌, List, IfOk, IfErr, ◌||◌, vec_capacity};
ghost use mathlib.Core.Option.{some};
ghost use lib.ListN.{get_elem?};
ghost use Rattle.g4_store.specs.Numbers.{Among, has, union};
ghost use Rattle.g4_store.specs.Words.{size_of, Stands, Shows};
ghost use Rattle.g4_store.specs.Views.{opening_view, leading, copied, met, IsWhole};
ghost use Rattle.g4_store.specs.Found.{StartFound, CellFound};
ghost use Rattle.g4_store.specs.Known.{KnowsRows};
ghost use Rattle.g4_store.specs.Paths.{IsPath, LeadsOn, cells_of, facts_of};
ghost use Rattle.g4_store.specs.Learned.{IsLearned};
ghost use Rattle.g4_store.specs.Closing.{Closes};
ghost use Rattle.g4_store.specs.declared.automaton.Fact.{Fact};
ghost use Rattle.g4_store.specs.Views.{pass_view, no_looks};

use crate::automaton::{Automaton, Content, Plan};
use crate::bench::Bench;
use crate::board::{Board, Found};
use crate::book::{Book, Learned};
use crate::listing::{Listing, finish};
use crate::pass::Pass;
use crate::path::{Looked, Origin, Path};
use crate::rows::Rows;
use crate::view::{Copying, Home, Meeting, Place, Review, Visit, Words};
use std::alloc::{AllocError, Global};
use std::collections::VecDeque;
use std::marker::PhantomData;
use std::sync::{Mutex, Wait};

/// A store whose table has no name yet.
#[derive(Drop)]
pub struct Opened<N: Drop, C: Content + Drop, A: Automaton<N, C>> {
    plan: Plan<N>,
    table: Words<N, C, A>,
    seat: Place<C>,
    rows: Rows<C>,
    ghost fits: { (seat.table_id ≡ table.shared.table_id) × (seat.me ≡ (opening_view, [])) × (table.shared.key ≡ plan)
        × (size_of plan ≡ table.shared.table_id.words) × (table.shared.table_id.slots ≡ 0) × (size_of plan < 2 ^ 32)
        × (0 < size_of plan) × (plan.rows ≤ 65536) },
    ghost room: { rows ≡ ([], plan.rows) },
}

fn either(one: bool, two: bool) -> bool
    ensures { result ≡ one || two }
{
    one || two
}

/// The words, all empty. While they are laid they take their memory twice.
fn empty_words<N: Drop, C: Drop, A: Automaton<N, C>>(
    alloc: Global,
    plan: &Plan<N>,
) -> Result<(Words<N, C, A>, Place<C>), AllocError>
    requires { (size_of plan.now < 2 ^ 32) × (plan.now.rows ≤ 65536) }
    ensures { IfOk result (λ w. (w.1.table_id ≡ w.0.shared.table_id) × (w.1.me ≡ (opening_view, [])) × (w.0.shared.key ≡ plan.now)
        × (size_of plan.now ≡ w.0.shared.table_id.words) × (w.0.shared.table_id.slots ≡ 0)) }
{
    let words = vec![in alloc; 0u64; plan.rows + (plan.rows * plan.columns + plan.starts)]?;
    let laid = Words::of_words(alloc, words.as_slice(), plan)?;
    Ok(laid)
}

impl<N: Drop, C: Content + Drop, A: Automaton<N, C>> Opened<N, C, A> {
    /// All memory that learning will need is taken here.
    pub fn new(alloc: Global, plan: Plan<N>) -> Result<Opened<N, C, A>, AllocError>
        requires size { (size_of plan < 2 ^ 32) × (0 < size_of plan) }
        requires rows { plan.rows ≤ 65536 }
        ensures { IfOk result (λ o. o.plan ≡ plan) }
    {
        let (table, seat) = empty_words(alloc, &plan)?;
        let rows = Rows::with_room(alloc, plan.rows)?;
        Ok(Opened {
            plan,
            table,
            seat,
            rows,
        })
    }

    /// The table has a name from here on.
    pub fn named<B: Home<N>>(self) -> (Store<N, C, A, B>, Pass<N, C, B>)
        requires { (self.table.shared.table_id ≡ B.table) × (self.plan ≡ B.plan) }
        ensures { result.1 ≡ (pass_view [] [] [] (0 ∷ []) 1 no_looks, false) }
    {
        let Opened {
            plan,
            table,
            mut seat,
            rows,
        } = self;
        let first = table.shared.split_seat::<Visit>(&mut seat);
        let pass = Pass {
            seat: first,
            full: false,
            home: PhantomData,
        };
        let book = Book {
            bench: Bench {
                seat,
                rows,
                home: PhantomData,
            },
        };
        let board = Board {
            plan,
            table,
            home: PhantomData,
        };
        let store = Store {
            board,
            book: Mutex::new(book),
        };
        (store, pass)
    }
}

/// The words that all threads share, and the book under its lock.
#[derive(Drop)]
pub struct Store<N: Drop, C: Content + Drop, A: Automaton<N, C>, B: Home<N>> {
    board: Board<N, C, A, B>,
    book: Mutex<Book<N, C, B>>,
}

impl<N: Drop, C: Content + Drop, A: Automaton<N, C>, B: Home<N>> Store<N, C, A, B> {
    /// The network.
    pub fn net(&self) -> &N
        ensures { result.now ≡ B.plan.net }
    {
        self.board.net()
    }

    /// Loads a start: its row, or `None` where the word that was read held 0.
    pub fn read_start(&self, pass: &mut Pass<N, C, B>, start: usize) -> Option<usize>
        requires { start < B.plan.starts }
        ensures found { StartFound A.starts A.leads B.plan start pass.old.0 pass.new.0 result }
        ensures rows { KnowsRows B.plan.rows pass.new }
        ensures full { pass.new.1 ≡ pass.old.1 }
    {
        pass.read_start(&self.board, start)
    }

    /// Loads the cell of a row that the pass knows.
    pub fn read_cell(&self, pass: &mut Pass<N, C, B>, row: usize, column: usize) -> Found
        requires row { (x : C) × Among (row, x) pass.old.0.known }
        requires place { (row < B.plan.rows) × (column < B.plan.columns) }
        ensures found { (x : C) → Among (row, x) pass.old.0.known
            → CellFound A.starts A.leads B.plan row x column pass.old.0 pass.new.0 result }
        ensures rows { KnowsRows B.plan.rows pass.new }
        ensures full { pass.new.1 ≡ pass.old.1 }
    {
        pass.read_cell(&self.board, row, column)
    }

    /// Learns a path under the lock.
    pub fn learn<R: Wait>(&self, rt: &R, pass: &mut Pass<N, C, B>, path: Path<C>) -> Learned
        requires { IsPath A.starts A.leads B.plan path }
        ensures learned { IsLearned B.plan.rows (facts_of path) pass.old pass.new result }
        ensures rows { KnowsRows B.plan.rows pass.new }
    {
        let Path {
            start,
            content,
            looked,
        } = path;
        let origin = Origin::AtStart(start, content);
        self.book.lock(rt).learn(&self.board, pass, origin, looked)
    }

    /// Learns under the lock what was looked at from a row on that the pass knows.
    pub fn learn_on<R: Wait>(
        &self,
        rt: &R,
        pass: &mut Pass<N, C, B>,
        row: usize,
        looked: VecDeque<Looked<C>>,
    ) -> Learned
        requires { (x : C) × Among (row, x) pass.old.0.known × LeadsOn A.starts A.leads B.plan x looked.items }
        ensures learned { (x : C) → Among (row, x) pass.old.0.known
            → IsLearned B.plan.rows (cells_of x looked.items) pass.old pass.new result }
        ensures rows { KnowsRows B.plan.rows pass.new }
    {
        let origin = Origin::AtRow(row);
        self.book.lock(rt).learn(&self.board, pass, origin, looked)
    }

    /// A copy of the content of a row that the pass knows. It takes the lock.
    ///
    /// # Errors
    /// No memory.
    pub fn copy_row<R: Wait>(
        &self,
        rt: &R,
        alloc: Global,
        pass: &mut Pass<N, C, B>,
        row: usize,
    ) -> Result<C, AllocError>
        requires { (x : C) × Among (row, x) pass.old.0.known }
        ensures content { (x : C) → Among (row, x) pass.old.0.known → IfOk result (λ made. made ≡ x) }
        ensures same { pass.new ≡ pass.old }
    {
        self.book.lock(rt).copy_row(alloc, &self.board, pass, row)
    }

    /// Another pass, which has seen as much. It asks for a pass that leads.
    pub fn copy_pass(&self, pass: &mut Pass<N, C, B>) -> Pass<N, C, B>
        requires { has 0 pass.old.0.holds ≡ true }
        ensures copy { result ≡ (copied pass.old.0, pass.old.1) }
        ensures same { pass.new ≡ (leading pass.old.0, pass.old.1) }
    {
        let full = pass.full;
        Pass {
            seat: self.board.desk().split_seat::<Copying>(&mut pass.seat),
            full,
            home: PhantomData,
        }
    }

    /// The first pass has then seen all that either has seen.
    pub fn meet(&self, pass: &mut Pass<N, C, B>, other: Pass<N, C, B>)
        ensures met { pass.new.0 ≡ met pass.old.0 other.0 }
        ensures full { pass.new.1 ≡ pass.old.1 || other.1 }
    {
        let Pass {
            seat,
            full,
            home: _,
        } = other;
        pass.full = either(pass.full, full);
        let desk = self.board.desk();
        desk.join_seat::<Meeting>(&mut pass.seat, seat);
        desk.load::<Review<N, A, B>>(&mut pass.seat, 0);
    }

    /// Closes the store. The Listing's memory is taken first, so where there is none both come back.
    pub fn close(
        self,
        alloc: Global,
        pass: Pass<N, C, B>,
    ) -> Result<Listing<N, C>, (Store<N, C, A, B>, Pass<N, C, B>)>
        ensures plan { IfOk result (λ l. l.plan ≡ B.plan) }
        ensures closes { IfOk result (λ l. Closes A.starts A.leads B.plan pass.0 l.words.items l.rows.items) }
        ensures back { IfErr result (λ r. r.1 ≡ pass) }
    {
        let Ok(words) = Vec::with_capacity(alloc, self.board.size()) else {
            return Err((self, pass));
        };
        let Store { board, book } = self;
        let Book { bench } = book.into_inner();
        let Pass {
            seat,
            full: _,
            home: _,
        } = pass;
        Ok(finish(board, bench, seat, words))
    }
}
