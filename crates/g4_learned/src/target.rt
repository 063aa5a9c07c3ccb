// What is learned of one row and one symbol.
ghost use Rattle.std.specs.Prelude.{◌≡◌, ◌^◌, ◌<◌, IfNone, IfSome, List};
ghost use Rattle.g4_classes.specs.Classes.{IsSymbol};
ghost use Rattle.g4_guards.specs.Levels.{IsCondition, IsDecision};
ghost use Rattle.g4_learned.specs.Walks.{Begins, Finds};
ghost use Rattle.g4_net.specs.Configurations.{Config};
ghost use Rattle.g4_store.specs.Known.{KnowsRows};
ghost use Rattle.g4_store.specs.Numbers.{Among};
ghost use Rattle.g4_store.specs.Walks.{Keeps};

use crate::decision_net::DecisionNet;
use crate::path::verdict_at;
use crate::store::{Pass, Store};
use g4_predict::Verdict;
use g4_store::board::Found;
use g4_store::view::Home;

/// Where a symbol leads from a row, as far as that is learned: to a row, or to SLL's verdict.
#[derive(Clone, Copy, Debug, PartialEq, Eq)]
pub enum Target {
    NotLearned,
    Row(usize),
    Ended(Verdict),
}

impl<B: Home<DecisionNet>> Store<B> {
    /// The row of a decision's start set under a condition, if it is learned. One load.
    pub fn start_row(&self, pass: &mut Pass<B>, decision: u32, condition: u32) -> Option<usize>
        requires decision { IsDecision B.plan.net.net decision }
        requires condition { IsCondition B.plan.net.net decision condition }
        ensures begins { Begins B.plan.net decision condition pass.old.0 pass.new.0 result }
        ensures same { Keeps pass.old.0 pass.new.0 }
        ensures full { pass.new.1 ≡ pass.old.1 }
        ensures rows { KnowsRows B.plan.rows pass.new }
    {
        let start = self.net().start_of(decision, condition);
        let found = self.store.read_start(pass, start);
        found
    }

    /// Where a symbol at a place after the decision leads from a row that the pass knows. One load.
    pub fn target(&self, pass: &mut Pass<B>, row: usize, symbol: u32, at: u32) -> Target
        requires row { (y : List Config) × Among (row, y) pass.old.0.known }
        requires place { row < B.plan.rows }
        requires symbol { IsSymbol symbol }
        ensures finds { (y : List Config) → Among (row, y) pass.old.0.known
            → Finds B.plan.net y symbol at pass.old.0 pass.new.0 result }
        ensures same { Keeps pass.old.0 pass.new.0 }
        ensures full { pass.new.1 ≡ pass.old.1 }
        ensures rows { KnowsRows B.plan.rows pass.new }
    {
        let column = self.net().column_of(symbol);
        let found = self.store.read_cell(pass, row, column as usize);
        match found {
            Found::Nothing => Target::NotLearned,
            Found::End(code) => Target::Ended(verdict_at(code, at)),
            Found::Row(next, _mark) => Target::Row(next),
        }
    }
}
