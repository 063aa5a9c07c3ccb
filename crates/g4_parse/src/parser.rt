// The parse run.
ghost use Rattle.std.specs.Prelude.{◌≡◌, ◌<◌, ◌*◌, ◌^◌, ◌↔◌, ℕ, All, List, [], Some, IsTrue, IfOk, OnOk, length};
ghost use Rattle.g4_classes.specs.Classes.{IsSymbol};
ghost use Rattle.g4_learned.specs.Stored.{IsPlan};
ghost use Rattle.g4_net.specs.declared.network.State.TheVariants.{Call, Decision, Edge, End, Level, Predicate};
ghost use Rattle.g4_net.specs.AddedRule.{IsReady};
ghost use Rattle.g4_net.specs.Network.{IsFirst, ParserNetwork as Net, state_at};
ghost use Rattle.g4_run.specs.Running.{Goes, Run, Values, beginning, deepest, with_begun, with_token};
ghost use Rattle.g4_parse.specs.Foresight.{Foresees, IsForeseen, at_target};
ghost use Rattle.g4_parse.specs.Standing.{StandsFor, IsNewestOf, IsTurnBy, IsDeciding, IsUnderway, HasEnded};
ghost use Rattle.g4_parse.specs.Teaching.{HadMemory, HasKept, IsPassedAt, IsTaught};
ghost use Rattle.g4_tokens.specs.TokenList.{word_of, EndsInEnd};
ghost use Rattle.g4_trees.specs.Kept.{HasGrown};
ghost use Rattle.g4_trees.specs.Trees.{Forest, items_of_all};

use crate::predicates::{Opened, Predicates};
use crate::state::{begun, state_of};
use crate::trial::Trial;
use g4_full::Memory;
use g4_learned::{DecisionNet, Pass, Store};
use g4_net::{ParserNetwork, State};
use g4_store::steps::Steps;
use g4_store::view::Home;
use g4_tokens::{Symbols, Token};
use g4_trees::{Tree, TreeBuilder};
use std::alloc::{AllocError, Global};
use std::sync::Wait;
use std::sync::ledger::Ledger;

/// Why a token list has no tree.
#[derive(Drop)]
pub enum ParseFault {
    /// No alternative of a decision is viable at this place of the token list.
    NoViable { at: u32 },
    /// The edge of this state does not take the token at this place.
    Mismatch { at: u32, state: u32 },
    /// A predicate that is false where it is passed, at this place, in the open rule of this number, which is 0 in the added rule.
    FailedPredicate { at: u32, rule: u32 },
    /// A call with 10,000 rules open, at this place.
    TooDeep { at: u32 },
    NoMemory,
}

/// The most rules that may be open.
const DEEPEST: usize = 10_000;

/// A moment of the run: the state and the place in the token list, the return states of the open rules, newest last, with their
/// numbers and levels, and the tree so far.
#[derive(Drop)]
pub struct Parser {
    pub(crate) state: u32,
    pub(crate) place: u32,
    pub(crate) returns: Vec<u32>,
    pub(crate) opened: Vec<Opened>,
    tree: TreeBuilder,
}

impl Parser {
    /// The run's beginning.
    pub fn new(alloc: Global) -> Self
        ensures { StandsFor result beginning }
    {
        Parser {
            state: 0,
            place: 0,
            returns: Vec::new(alloc),
            opened: Vec::new(alloc),
            tree: TreeBuilder::new(alloc),
        }
    }

    /// Whether the run is at the end of a rule with no rule open.
    pub fn has_ended(&self, net: &ParserNetwork) -> bool
        requires { self.now.state < length net.now.states }
        ensures { IsTrue result ↔ HasEnded net.now self.now }
    {
        self.returns.is_empty() && matches!(state_of(net, self.state), State::End(_))
    }

    /// The newest open rule. Of the added rule the number and the level are 0.
    pub(crate) fn newest(&self) -> Opened
        ensures { (r : Run) → StandsFor self.now r → IsNewestOf r.frames result }
    {
        match self.opened.last() {
            Some(opened) => *opened,
            None => Opened { rule: 0, level: 0 },
        }
    }

    /// Opens a rule, unless as many are open as may be.
    fn call(&mut self, net: &ParserNetwork, opened: Opened, back: u32) -> Result<(), ParseFault>
        requires starts { 2 * opened.rule < length net.now.written }
        requires fits { 2 * opened.rule < 2 ^ 32 }
        ensures { (values : Values) (word : List ℕ) (r : Run) → StandsFor self.old r
            → IsTurnBy net.now values word (Some (Call opened.rule opened.level back)) r self.new result }
    {
        if self.returns.len() >= DEEPEST {
            return Err(ParseFault::TooDeep { at: self.place });
        }
        let start = 2 * opened.rule;
        let alt = net.written.as_slice()[start as usize];
        self.returns.push(back)?;
        self.opened.push(opened)?;
        self.tree.open(opened.rule, alt, self.place)?;
        self.state = start;
        Ok(())
    }

    /// Writes the next token as a child of the newest open rule. The added rule keeps none.
    fn keep(&mut self) -> Result<(), AllocError>
        ensures place { self.new.place ≡ self.old.place }
        ensures kept { OnOk result ((r : Run) → StandsFor self.old r → StandsFor self.new (with_token r r.frames)) }
    {
        if !self.returns.is_empty() {
            self.tree.token(self.place)?;
        }
        Ok(())
    }

    /// Takes the next token.
    fn take(&mut self, set: &Symbols, target: u32, tokens: &[Token]) -> Result<(), ParseFault>
        requires more { self.old.place < length tokens.now }
        requires few { length tokens.now < 2 ^ 32 }
        ensures { (net : Net) (values : Values) (r : Run) → StandsFor self.old r
            → IsTurnBy net values (word_of tokens.now) (Some (Edge set.now target)) r self.new result }
    {
        let symbol = tokens[self.place as usize].symbol;
        if !set.contains(symbol) {
            return Err(ParseFault::Mismatch {
                at: self.place,
                state: self.state,
            });
        }
        self.keep()?;
        self.place += 1;
        self.state = target;
        Ok(())
    }

    /// Writes the alternative of the newest open rule's node, where one as the grammar writes it begins.
    fn begin_alternative(&mut self, alternative: u32)
        ensures { (r : Run) → StandsFor self.old r → StandsFor self.new (with_begun alternative r) }
    {
        if alternative == 0 {
            return;
        }
        self.tree.set_alternative(alternative);
    }

    /// Goes to an alternative of the decision.
    pub(crate) fn go_to(&mut self, net: &ParserNetwork, targets: &[u32], alternative: u32)
        requires ready { IsReady net.now }
        requires decides { state_at net.now self.old.state ≡ Some (Decision targets.now) }
        requires first { (t : ℕ) × IsFirst net.now self.old.state alternative t }
        ensures { (r : Run) (t : ℕ) → StandsFor self.old r → IsFirst net.now r.state alternative t
            → StandsFor self.new (at_target net.now r t) }
    {
        let target = targets[alternative as usize - 1];
        self.begin_alternative(begun(net, target));
        self.state = target;
    }

    /// Goes to the alternative that prediction chooses.
    fn choose<B: Home<DecisionNet>, R: Wait, L: Ledger, P: Predicates>(
        &mut self,
        rt: &R,
        alloc: Global,
        net: &ParserNetwork,
        store: &Store<B>,
        pass: &mut Pass<B>,
        memory: &mut Memory<B>,
        predicates: &P,
        targets: &[u32],
        tokens: &[Token],
        trial: &mut Trial,
        steps: &mut Steps<L>,
    ) -> Result<(), ParseFault>
        requires own { net.now ≡ B.plan.net.net }
        requires plan { IsPlan B.plan }
        requires deciding { IsDeciding net.now (length tokens.now) self.old }
        requires decides { state_at net.now self.old.state ≡ Some (Decision targets.now) }
        requires foreseen { IsForeseen net.now (P.values predicates.now) (word_of tokens.now) self.old trial.old }
        requires symbols { All IsSymbol (word_of tokens.now) }
        requires ends { EndsInEnd (word_of tokens.now) }
        requires few { length tokens.now < 2 ^ 32 }
        ensures turns { (r : Run) → StandsFor self.old r
            → IsTurnBy net.now (P.values predicates.now) (word_of tokens.now) (Some (Decision targets.now)) r self.new result }
        ensures foresees { OnOk result ((r s : Run) → StandsFor self.old r
            → Foresees net.now (P.values predicates.now) (word_of tokens.now) trial.old r
            → Goes net.now (P.values predicates.now) (word_of tokens.now) deepest r s
            → Foresees net.now (P.values predicates.now) (word_of tokens.now) trial.new s) }
        ensures kept { HasKept pass.old pass.new }
        ensures taught { HadMemory result → (r : Run) → StandsFor self.old r
            → IsTaught B.plan (IsPassedAt B.plan.net (P.values predicates.now) (word_of tokens.now) r) pass.old pass.new }
    {
        let alternative = self.chosen(
            rt, alloc, store, pass, memory, predicates, targets, tokens, trial, steps,
        )?;
        trial.take_decision();
        self.go_to(net, targets, alternative);
        Ok(())
    }

    /// Closes the newest open rule.
    fn close(&mut self) -> Result<(), ParseFault>
        requires { 0 < length self.old.returns.items }
        ensures { (net : Net) (values : Values) (word : List ℕ) (rule : ℕ) (r : Run) → StandsFor self.old r
            → IsTurnBy net values word (Some (End rule)) r self.new result }
    {
        let Some(back) = self.returns.pop() else {
            unreachable!()
        };
        self.opened.pop();
        self.tree.close()?;
        self.state = back;
        Ok(())
    }

    /// Makes the node so far of the newest open rule the first child of a new node of the same rule, where the level is true.
    fn pass_level(&mut self, net: &ParserNetwork, most: u32, target: u32) -> Result<(), ParseFault>
        requires { self.now.state < length net.now.written }
        ensures { (values : Values) (word : List ℕ) (r : Run) → StandsFor self.old r
            → IsTurnBy net.now values word (Some (Level most target)) r self.new result }
    {
        let newest = self.newest();
        if newest.level > most {
            return Err(ParseFault::FailedPredicate {
                at: self.place,
                rule: newest.rule,
            });
        }
        let alternative = net.written.as_slice()[self.state as usize];
        self.tree.wrap(alternative)?;
        self.state = target;
        Ok(())
    }

    /// Passes a predicate, where it is true.
    fn pass_predicate<P: Predicates>(
        &mut self,
        predicates: &P,
        predicate: u32,
        target: u32,
    ) -> Result<(), ParseFault>
        ensures { (net : Net) (word : List ℕ) (r : Run) → StandsFor self.old r
            → IsTurnBy net (P.values predicates.now) word (Some (Predicate predicate target)) r self.new result }
    {
        if !predicates.holds(predicate, &self.opened, self.place) {
            return Err(ParseFault::FailedPredicate {
                at: self.place,
                rule: self.newest().rule,
            });
        }
        self.state = target;
        Ok(())
    }

    /// One step of the run, at a state that is no decision.
    pub(crate) fn step<P: Predicates>(
        &mut self,
        net: &ParserNetwork,
        predicates: &P,
        tokens: &[Token],
    ) -> Result<(), ParseFault>
        requires underway { IsUnderway net.now (length tokens.now) self.old }
        requires goes_on { HasEnded net.now self.old → ⊥ }
        requires chooses_none { (targets : List ℕ) → state_at net.now self.old.state ≡ Some (Decision targets) → ⊥ }
        requires few { length tokens.now < 2 ^ 32 }
        ensures { (r : Run) → StandsFor self.old r
            → IsTurnBy net.now (P.values predicates.now) (word_of tokens.now) (state_at net.now r.state) r self.new result }
    {
        match state_of(net, self.state) {
            State::Call { rule, level, back } => {
                let (rule, level) = (*rule, *level);
                self.call(net, Opened { rule, level }, *back)
            }
            State::Edge(set, target) => self.take(set, *target, tokens),
            State::End(_) => self.close(),
            State::Action(target) => {
                self.state = *target;
                Ok(())
            }
            State::Empty(target) => {
                self.state = *target;
                Ok(())
            }
            State::Decision(_) => unreachable!(),
            State::Predicate(number, target) => self.pass_predicate(predicates, *number, *target),
            State::Level(most, target) => self.pass_level(net, *most, *target),
        }
    }

    /// One step of the run.
    pub fn turn<B: Home<DecisionNet>, R: Wait, L: Ledger, P: Predicates>(
        &mut self,
        rt: &R,
        alloc: Global,
        net: &ParserNetwork,
        store: &Store<B>,
        pass: &mut Pass<B>,
        memory: &mut Memory<B>,
        predicates: &P,
        tokens: &[Token],
        trial: &mut Trial,
        steps: &mut Steps<L>,
    ) -> Result<(), ParseFault>
        requires own { net.now ≡ B.plan.net.net }
        requires plan { IsPlan B.plan }
        requires underway { IsUnderway net.now (length tokens.now) self.old }
        requires goes_on { HasEnded net.now self.old → ⊥ }
        requires foreseen { IsForeseen net.now (P.values predicates.now) (word_of tokens.now) self.old trial.old }
        requires symbols { All IsSymbol (word_of tokens.now) }
        requires ends { EndsInEnd (word_of tokens.now) }
        requires few { length tokens.now < 2 ^ 32 }
        ensures turns { (r : Run) → StandsFor self.old r
            → IsTurnBy net.now (P.values predicates.now) (word_of tokens.now) (state_at net.now r.state) r self.new result }
        ensures foresees { OnOk result ((r s : Run) → StandsFor self.old r
            → Foresees net.now (P.values predicates.now) (word_of tokens.now) trial.old r
            → Goes net.now (P.values predicates.now) (word_of tokens.now) deepest r s
            → Foresees net.now (P.values predicates.now) (word_of tokens.now) trial.new s) }
        ensures kept { HasKept pass.old pass.new }
        ensures taught { HadMemory result → (r : Run) → StandsFor self.old r
            → IsTaught B.plan (IsPassedAt B.plan.net (P.values predicates.now) (word_of tokens.now) r) pass.old pass.new }
    {
        if let State::Decision(targets) = state_of(net, self.state) {
            let targets = targets.as_slice();
            return self.choose(
                rt, alloc, net, store, pass, memory, predicates, targets, tokens, trial, steps,
            );
        }
        self.step(net, predicates, tokens)
    }

    /// The tree of a run that has ended.
    pub fn finish(self, alloc: Global) -> Result<Tree, AllocError>
        ensures { IfOk result (λ items. (trees : Forest) → HasGrown self.tree (record { nodes = []; trees = trees })
            → items ≡ items_of_all trees) }
    {
        self.tree.finish(alloc)
    }
}
