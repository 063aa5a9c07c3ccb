// Walks along what was learned.
ghost use Rattle.std.specs.Prelude.{◌≡◌, ◌≢◌, ℕ, ◌+◌, ◌<◌, ◌≤◌, true, false, [], length, All};
ghost use Rattle.g4_store.specs.declared.walk.Walk.TheVariants.{End};
ghost use Rattle.g4_store.specs.Walks.{Keeps, Walked, SeenTo, Ticks};

use crate::automaton::{Automaton, Content};
use crate::board::Found;
use crate::pass::Pass;
use crate::steps::Steps;
use crate::store::Store;
use crate::view::Home;
use std::sync::ledger::Ledger;

/// Where a walk ended: at an end with this code after this many columns before it, past the last column, or at a word that held 0
/// when it was read, the start's or that of the cell of the column before.
#[derive(Clone, Copy)]
pub enum Walk {
    End(u64, usize),
    Open,
    NotLearned(usize),
}

impl<N: Drop, C: Content + Drop, A: Automaton<N, C>, B: Home<N>> Store<N, C, A, B> {
    /// Walks from a start along the columns by loads alone.
    pub fn walk<L: Ledger>(
        &self,
        pass: &mut Pass<N, C, B>,
        start: usize,
        columns: &[u32],
        steps: &mut Steps<L>,
    ) -> Walk
        requires start { start < B.plan.starts }
        requires columns { All (λ s. s < B.plan.columns) columns.now }
        ensures walked { Walked A.starts A.leads B.plan start columns.now pass.old.0 pass.new.0 result }
        ensures learned { (k code : ℕ) → SeenTo A.starts A.leads B.plan start columns.now k code pass.old.0 → result ≡ End code k }
        ensures loads { Ticks (length columns.now) pass.old.0.looks.count pass.new.0.looks.count result }
        ensures same { Keeps pass.old.0 pass.new.0 }
        ensures steps { Ticks (length columns.now) steps.old steps.new result }
        ensures full { pass.new.1 ≡ pass.old.1 }
    {
        steps.tick();
        let Some(first) = self.read_start(pass, start) else {
            return Walk::NotLearned(0);
        };
        let mut row = first;
        for (k, column) in columns.iter().enumerate() {
            steps.tick();
            let found = self.read_cell(pass, row, *column as usize);
            match found {
                Found::Nothing => return Walk::NotLearned(k + 1),
                Found::End(code) => return Walk::End(code, k),
                Found::Row(next, _mark) => row = next,
            }
        }
        Walk::Open
    }
}
