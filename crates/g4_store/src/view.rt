// What a seat knows, the rule, and the kinds of step.
ghost use Rattle.std.specs.Prelude.{ℕ};
ghost use Rattle.atomic_table.specs.Seated.{TableId};

use crate::automaton::{Automaton, Fact, Plan};
use atomic_table::{Join, Play, Seat, Shared, Split, Table, TableRule};
use std::alloc::Global;
use std::collections::LinkedList;
use std::marker::PhantomData;

/// Names one table and its plan.
pub trait Home<N> {
    ghost use Rattle.atomic_table.specs.Seated.{TableId};
    ghost use Rattle.g4_store.specs.declared.automaton.Plan.{Plan};

    ghost table: { TableId };

    ghost plan: { Plan N };
}

/// How many words a seat has loaded, the last of them, and what it held. No value of it is made.
pub struct Looks {
    pub count: u64,
    pub word: u64,
    pub found: u64,
}

/// What a seat knows. No value of it is made.
pub struct View<C> {
    pub is_book: bool,
    pub spent: bool,
    pub rows: LinkedList<C>,
    pub loose: LinkedList<C>,
    pub facts: LinkedList<Fact<C>>,
    pub seen: LinkedList<Fact<C>>,
    pub taught: LinkedList<Fact<C>>,
    pub known: LinkedList<(u64, C)>,
    pub holds: LinkedList<u64>,
    pub count: u64,
    pub looks: Looks,
}

pub struct Law<A> {
    marker: PhantomData<A>,
}

impl<N, C, A: Automaton<N, C>> TableRule<(), View<C>, Plan<N>> for Law<A> {
    ghost use Rattle.g4_store.specs.Views.{Rule, opening_view};

    ghost holds = { Rule A.starts A.leads };

    ghost first = { λ _. opening_view };
}

pub struct ProbeStart<N, A, B> {
    marker: PhantomData<(N, A, B)>,
}

impl<N, C, A: Automaton<N, C>, B: Home<N>> Play<(), View<C>> for ProbeStart<N, A, B> {
    ghost use Rattle.g4_store.specs.Views.{ProbedStart};

    ghost then = { ProbedStart A.starts A.leads B.plan };
}

pub struct ProbeCell<N, A, B> {
    marker: PhantomData<(N, A, B)>,
}

impl<N, C, A: Automaton<N, C>, B: Home<N>> Play<(), View<C>> for ProbeCell<N, A, B> {
    ghost use Rattle.g4_store.specs.Views.{ProbedCell};

    ghost then = { ProbedCell A.starts A.leads B.plan };
}

pub struct Grow<N, A, B> {
    marker: PhantomData<(N, A, B)>,
}

impl<N, C, A: Automaton<N, C>, B: Home<N>> Play<(), View<C>> for Grow<N, A, B> {
    ghost use Rattle.g4_store.specs.Views.{Grown};

    ghost then = { Grown A.starts A.leads B.plan };
}

pub struct FillStart<N, A, B> {
    marker: PhantomData<(N, A, B)>,
}

impl<N, C, A: Automaton<N, C>, B: Home<N>> Play<(), View<C>> for FillStart<N, A, B> {
    ghost use Rattle.g4_store.specs.Views.{FilledStart};

    ghost then = { FilledStart A.starts A.leads B.plan };
}

pub struct FillCell<N, A, B> {
    marker: PhantomData<(N, A, B)>,
}

impl<N, C, A: Automaton<N, C>, B: Home<N>> Play<(), View<C>> for FillCell<N, A, B> {
    ghost use Rattle.g4_store.specs.Views.{FilledCell};

    ghost then = { FilledCell A.starts A.leads B.plan };
}

pub struct RereadStart<N, A, B> {
    marker: PhantomData<(N, A, B)>,
}

impl<N, C, A: Automaton<N, C>, B: Home<N>> Play<(), View<C>> for RereadStart<N, A, B> {
    ghost use Rattle.g4_store.specs.Views.{RereadStart as reread_start};

    ghost then = { reread_start A.starts A.leads B.plan };
}

pub struct RereadCell<N, A, B> {
    marker: PhantomData<(N, A, B)>,
}

impl<N, C, A: Automaton<N, C>, B: Home<N>> Play<(), View<C>> for RereadCell<N, A, B> {
    ghost use Rattle.g4_store.specs.Views.{RereadCell as reread_cell};

    ghost then = { reread_cell A.starts A.leads B.plan };
}

// A load by the book, which has a guest.
pub struct Check<N, A, B> {
    marker: PhantomData<(N, A, B)>,
}

impl<N, C, A: Automaton<N, C>, B: Home<N>> Play<(), View<C>> for Check<N, A, B> {
    ghost use Rattle.g4_store.specs.Views.{Checked};

    ghost then = { Checked A.starts A.leads B.plan };
}

// A load by a pass, which tells that what it knows are rows.
pub struct Review<N, A, B> {
    marker: PhantomData<(N, A, B)>,
}

impl<N, C, A: Automaton<N, C>, B: Home<N>> Play<(), View<C>> for Review<N, A, B> {
    ghost use Rattle.g4_store.specs.Views.{Reviewed};

    ghost then = { Reviewed A.starts A.leads B.plan };
}

// A copy of a pass.
pub struct Copying;

impl<C> Split<View<C>> for Copying {
    ghost use Rattle.g4_store.specs.Views.{leading, copied};

    ghost left = { leading };

    ghost right = { copied };
}

pub struct Meeting;

impl<C> Join<View<C>> for Meeting {
    ghost use Rattle.g4_store.specs.Views.{met, gone};

    ghost both = { met };

    ghost spent = { gone };
}

// The book's guest comes and goes.
pub struct Visit;

impl<C> Split<View<C>> for Visit {
    ghost use Rattle.g4_store.specs.Views.{without_guest, guest_of};

    ghost left = { without_guest };

    ghost right = { guest_of };
}

impl<C> Join<View<C>> for Visit {
    ghost use Rattle.g4_store.specs.Views.{hosting, gone};

    ghost both = { hosting };

    ghost spent = { gone };
}

// The guest goes with all rows.
pub struct Telling;

impl<C> Split<View<C>> for Telling {
    ghost use Rattle.g4_store.specs.Views.{without_guest, told_guest};

    ghost left = { without_guest };

    ghost right = { told_guest };
}

// A whole view comes off its seat, which is spent.
pub struct Leaving;

impl<C> Split<View<C>> for Leaving {
    ghost use Rattle.g4_store.specs.Views.{guest_of, gone};

    ghost left = { λ _. gone };

    ghost right = { guest_of };
}

pub type Words<N, C, A> = Table<(), View<C>, Plan<N>, Law<A>, Global>;

pub type Desk<N, C, A> = Shared<(), View<C>, Plan<N>, Law<A>>;

pub type Place<C> = Seat<(), View<C>>;
