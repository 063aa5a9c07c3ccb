// What is learned of a path: which of its rows there are, and what can be filled.
ghost use Rattle.std.specs.Prelude.{◌≡◌, ◌⊎◌, ◌+◌, ◌↔◌, ◌<◌, ◌≤◌, ℕ, IsTrue, MatchOption, None, length, slice_index_or};
ghost use mathlib.Core.Option.{some};
ghost use lib.ListN.{get_elem?};
ghost use Rattle.g4_core.specs.States.{IsAt, Says, cell_of, contents_of, questions_of};
ghost use Rattle.g4_core.specs.Steps.{IsClosed, IsFirst, IsOpen, IsSlot, NextCell, NextRow, NothingLeft, phase_at};
ghost use Rattle.g4_core.specs.Stepping.{after};
ghost use Rattle.g4_store.specs.Numbers.{Among};
ghost use Rattle.g4_store.specs.Paths.{InRows, IsPath, Onward, facts_of};
ghost use Rattle.g4_store.specs.declared.automaton.Fact.{Fact};
ghost use Rattle.g4_store.specs.declared.automaton.Fact.TheVariants.{Cell, Start};
ghost use Rattle.g4_store.specs.declared.automaton.Led.TheVariants.{Row};
ghost use Rattle.g4_store.specs.declared.path.Path.{Path as Way};

use crate::event::{Entry, Phase, Place, Slot};
use crate::machine::Core;
use g4_store::automaton::{Automaton, Content, Led};
use g4_store::path::{Looked, Path};

/// The content at which a path goes on after this.
fn content_after<'a, C: Drop>(content: &'a C, looked: &'a Looked<C>) -> &'a C
    ensures { result.now ≡ after looked.now.led content.now }
{
    match &looked.led {
        Led::Row(next, _) => next,
        Led::End(_) => content,
    }
}

/// The item at a place of a list.
pub(crate) fn item_at<T: Copy>(list: &[T], at: usize) -> Option<T>
    ensures { MatchOption result ((a : T) → get_elem? list.now at ≡ some a → ⊥) (λ a. get_elem? list.now at ≡ some a) }
{
    match list.get(at) {
        Some(item) => Some(*item),
        None => None,
    }
}

impl<N: Drop, C: Content + Drop, A: Automaton<N, C>> Core<N, C, A> {
    /// The path of a question.
    pub(crate) fn path_of(&self, file: usize, question: usize) -> Option<&Path<C>>
        ensures { MatchOption result ((path : Way C) → IsAt self.now.files file question path → ⊥)
            (λ path. IsAt self.now.files file question path.now) }
    {
        self.files.as_slice().get(file)?.as_slice().get(question)
    }

    /// The number of the row with this content.
    pub(crate) fn find(&self, content: &C) -> Option<usize>
        ensures { MatchOption result (InRows self.now.rows content.now → ⊥) (λ t. get_elem? self.now.rows t ≡ some content.now) }
    {
        for (row, held) in self.rows.iter().enumerate() {
            if held.same(content) {
                return Some(row);
            }
        }
        None
    }

    /// How many questions a file has.
    fn count(&self, file: usize) -> usize
        ensures { result ≡ length (questions_of self.now.files file) }
    {
        match self.files.as_slice().get(file) {
            Some(questions) => questions.len(),
            None => 0,
        }
    }

    /// Where a worker goes for this question, or past the last.
    pub(crate) fn phase_at(&self, file: usize, question: usize) -> Phase
        ensures { result ≡ phase_at self.now file question }
    {
        if question < self.count(file) {
            Phase::Reading(file, question, Place::Start)
        } else {
            Phase::Ended(file)
        }
    }

    /// Where a worker goes after this question.
    pub(crate) fn phase_after(&self, file: usize, question: usize) -> Phase
        ensures { result ≡ phase_at self.now file (question + 1) }
    {
        if question < self.count(file) {
            self.phase_at(file, question + 1)
        } else {
            Phase::Ended(file)
        }
    }

    /// What a start holds.
    pub(crate) fn start_at(&self, start: u32) -> Option<usize>
        ensures { result ≡ slice_index_or self.now.starts start None }
    {
        match self.starts.get(start as usize) {
            Some(row) => *row,
            None => None,
        }
    }

    /// The number of the cell of a row and a column.
    fn cell_at(&self, row: usize, column: u32) -> Option<usize>
        ensures { MatchOption result (length self.now.cells ≤ cell_of self.now row column)
            (λ cell. (cell ≡ cell_of self.now row column) × (cell < length self.now.cells)) }
    {
        let cell = row
            .checked_mul(self.plan.columns)?
            .checked_add(column as usize)?;
        if cell < self.cells.len() {
            Some(cell)
        } else {
            None
        }
    }

    /// What the cell of a row and a column holds.
    pub(crate) fn entry_at(&self, row: usize, column: u32) -> Option<Entry>
        ensures { result ≡ slice_index_or self.now.cells (cell_of self.now row column) None }
    {
        match self.cell_at(row, column) {
            Some(cell) => self.cells[cell],
            None => None,
        }
    }

    /// The entry for what is led to, if its row is there.
    fn entry_of(&self, led: &Led<C>) -> Option<Entry>
        ensures { MatchOption result (Onward led.now (InRows self.now.rows) → ⊥) (λ entry. Says self.now.rows entry led.now) }
    {
        match led {
            Led::Row(next, mark) => match self.find(next) {
                Some(row) => Some(Entry::Row(row, *mark)),
                None => None,
            },
            Led::End(code) => Some(Entry::End(*code)),
        }
    }

    /// What can be filled for the start of a path.
    fn start_slot(&self, path: &Path<C>) -> Option<Slot>
        requires { IsPath A.starts A.leads self.now.plan path.now }
        ensures { MatchOption result (IsClosed self.now (Start path.now.start path.now.content))
            (λ slot. IsOpen self.now (Start path.now.start path.now.content)
            × IsSlot self.now (Start path.now.start path.now.content) slot) }
    {
        let _ = &self.plan;
        let row = self.find(&path.content)?;
        match self.start_at(path.start) {
            Some(_) => None,
            None => Some(Slot::Start(path.start as usize, row)),
        }
    }

    /// What can be filled for a cell of a path, of the row with this content.
    fn cell_slot(&self, content: &C, looked: &Looked<C>) -> Option<Slot>
        requires column { looked.now.column < self.now.plan.columns }
        requires leads { A.leads self.now.plan.net content.now looked.now.column looked.now.led }
        ensures { MatchOption result (IsClosed self.now (Cell content.now looked.now.column looked.now.led))
            (λ slot. IsOpen self.now (Cell content.now looked.now.column looked.now.led)
            × IsSlot self.now (Cell content.now looked.now.column looked.now.led) slot) }
    {
        let _ = &self.plan;
        let row = self.find(content)?;
        let cell = self.cell_at(row, looked.column)?;
        match self.entry_at(row, looked.column) {
            Some(_) => None,
            None => match self.entry_of(&looked.led) {
                Some(entry) => Some(Slot::Cell(cell, entry)),
                None => None,
            },
        }
    }

    /// The path's next start or cell that can be filled.
    pub(crate) fn next_slot(&self, path: &Path<C>) -> Option<Slot>
        requires { IsPath A.starts A.leads self.now.plan path.now }
        ensures { MatchOption result ((f : Fact C) → Among f (facts_of path.now) → IsClosed self.now f)
            (λ slot. (f : Fact C) × NextCell self.now path.now f × IsSlot self.now f slot) }
    {
        if let Some(slot) = self.start_slot(path) {
            return Some(slot);
        }
        let mut content = &path.content;
        for at in 0..path.looked.len() {
            let looked = &path.looked[at];
            if let Some(slot) = self.cell_slot(content, looked) {
                return Some(slot);
            }
            content = content_after(content, looked);
        }
        None
    }

    /// The row that a cell leads to, where it is missing.
    fn missing_at<'a>(&self, looked: &'a Looked<C>) -> Option<&'a C>
        ensures { MatchOption result (Onward looked.now.led (InRows self.now.rows))
            (λ y. (mark : ℕ) × (looked.now.led ≡ Row y.now mark) × (InRows self.now.rows y.now → ⊥)) }
    {
        match &looked.led {
            Led::Row(next, _) => match self.find(next) {
                Some(_) => None,
                None => Some(next),
            },
            Led::End(_) => None,
        }
    }

    /// The next content of a path that is no row, where its first is one.
    fn missing_along<'a>(&self, path: &'a Path<C>) -> Option<&'a C>
        requires { InRows self.now.rows path.now.content }
        ensures { MatchOption result ((y : C) → Among y (contents_of path.now) → InRows self.now.rows y)
            (λ y. IsFirst (InRows self.now.rows) (λ z. InRows self.now.rows z → ⊥) (contents_of path.now) y.now) }
    {
        for at in 0..path.looked.len() {
            let looked = &path.looked[at];
            if let Some(content) = self.missing_at(looked) {
                return Some(content);
            }
        }
        None
    }

    /// The path's next content that is no row.
    fn next_missing<'a>(&self, path: &'a Path<C>) -> Option<&'a C>
        ensures { MatchOption result ((y : C) → Among y (contents_of path.now) → InRows self.now.rows y)
            (λ y. IsFirst (InRows self.now.rows) (λ z. InRows self.now.rows z → ⊥) (contents_of path.now) y.now) }
    {
        match self.find(&path.content) {
            Some(_) => self.missing_along(path),
            None => Some(&path.content),
        }
    }

    /// Whether there is room for a row.
    fn has_room(&self) -> bool
        ensures { IsTrue result ↔ (length self.now.rows < self.now.plan.rows) }
    {
        self.rows.len() < self.plan.rows
    }

    /// The path's next content that is no row, where there is room for it.
    pub(crate) fn next_row<'a>(&self, path: &'a Path<C>) -> Option<&'a C>
        ensures { MatchOption result ((y : C) → NextRow self.now path.now y → ⊥) (λ y. NextRow self.now path.now y.now) }
    {
        if self.has_room() {
            self.next_missing(path)
        } else {
            None
        }
    }

    /// Whether no row of a path can be added.
    fn rows_done(&self, path: &Path<C>) -> bool
        ensures { IsTrue result ↔ ((length self.now.rows ≡ self.now.plan.rows)
            ⊎ ((y : C) → Among y (contents_of path.now) → InRows self.now.rows y)) }
    {
        let _ = &self.plan;
        if self.has_room() {
            match self.next_missing(path) {
                Some(_) => false,
                None => true,
            }
        } else {
            true
        }
    }

    /// Whether nothing of a path is left to learn.
    pub(crate) fn is_learned(&self, path: &Path<C>) -> bool
        requires { IsPath A.starts A.leads self.now.plan path.now }
        ensures { IsTrue result ↔ NothingLeft self.now path.now }
    {
        match self.next_slot(path) {
            Some(_) => false,
            None => self.rows_done(path),
        }
    }
}
