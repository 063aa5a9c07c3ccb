// What prediction chooses at a decision of the run, over the alternatives whose first tests are true there.
ghost use Rattle.std.specs.Prelude.{◌≡◌, ◌<◌, ◌≤◌, ◌+◌, ◌^◌, ◌↔◌, ℕ, All, List, Some, Contains, IsTrue, IfOk, drop, length, reverse, slice_get, suc};
ghost use Rattle.g4_classes.specs.Classes.{IsSymbol};
ghost use Rattle.g4_decide.specs.Deciding.{HadMemory, IsChosen, IsSensitive};
ghost use Rattle.g4_guards.specs.Levels.{HasDigit, IsDecision};
ghost use Rattle.g4_guards.specs.Tests.{HasTests, tests_among};
ghost use Rattle.g4_guards.specs.declared.tests.Tests.TheVariants.{Many};
ghost use Rattle.g4_learned.specs.Stored.{IsPlan};
ghost use Rattle.g4_net.specs.AddedRule.{IsReady};
ghost use Rattle.g4_net.specs.Loops.{HasLoops};
ghost use Rattle.g4_net.specs.declared.network.State.TheVariants.{Decision};
ghost use Rattle.g4_net.specs.Network.{state_at};
ghost use Rattle.g4_run.specs.Running.{Passes, Run};
ghost use Rattle.g4_parse.specs.Deciding.{GivesCondition, IsPredicted};
ghost use Rattle.g4_parse.specs.Standing.{IsDeciding, StandsFor};
ghost use Rattle.g4_parse.specs.Foresight.{Foresees, IsForeseen};
ghost use Rattle.g4_parse.specs.Teaching.{HasKept, IsConditionAt, IsPassedAt, IsTaught};
ghost use Rattle.g4_parse.specs.Tested.{IsTestedAt, LeadsBehind, PassesAmong};
ghost use Rattle.g4_tokens.specs.TokenList.{word_of, EndsInEnd};

use crate::parser::Parser;
use crate::predicates::Predicates;
use crate::state::state_of;
use crate::trial::Trial;
use g4_base::Sequence;
use g4_decide::{DecideFault, Decided, decide, decide_by_stack, decide_far};
use g4_full::Memory;
use g4_guards::{Tests, is_test_at};
use g4_learned::{DecisionNet, Pass, Store};
use g4_net::{Allowed, ParserNetwork, State};
use g4_store::steps::Steps;
use g4_store::view::Home;
use g4_tokens::Token;
use std::alloc::{AllocError, Global};
use std::sync::Wait;
use std::sync::ledger::Ledger;

/// What a state is to the tests with which an alternative begins: one that is true, with the state behind it, one that is false, or none.
enum Tested {
    Holds(u32),
    Fails,
    Untested,
}

impl Parser {
    /// What the state is to them now.
    fn tested<P: Predicates>(&self, net: &ParserNetwork, predicates: &P, state: u32) -> Tested
        requires { state < length net.now.states }
        ensures leads { LeadsBehind net.now state result }
        ensures tested { (word : List ℕ) (r : Run) → StandsFor self.now r
            → IsTestedAt net.now (P.values predicates.now) word r state result }
    {
        match state_of(net, state) {
            State::Level(most, target) => {
                if self.newest().level > *most {
                    return Tested::Fails;
                }
                Tested::Holds(*target)
            }
            State::Predicate(number, target) => {
                if !predicates.holds(*number, &self.opened, self.place) {
                    return Tested::Fails;
                }
                Tested::Holds(*target)
            }
            _ => Tested::Untested,
        }
    }

    /// Whether the tests that begin at the state are all true now.
    fn passes<P: Predicates>(&self, net: &ParserNetwork, predicates: &P, first: u32) -> bool
        requires ready { IsReady net.now }
        requires within { first < length net.now.states }
        ensures { (word : List ℕ) (r : Run) → StandsFor self.now r
            → IsTrue result ↔ Passes net.now (P.values predicates.now) word r first }
    {
        let mut state = first;
        'tests: loop {
            match self.tested(net, predicates, state) {
                Tested::Holds(target) => state = target,
                Tested::Fails => return false,
                Tested::Untested => return true,
            }
        }
    }

    /// The number whose digits, the least first, say of the alternatives that begin with tests which are all true now.
    fn digits<P: Predicates>(&self, net: &ParserNetwork, predicates: &P, targets: &[u32]) -> u32
        requires ready { IsReady net.now }
        requires within { All (λ t. t < length net.now.states) targets.now }
        requires few { tests_among net.now targets.now ≤ 31 }
        ensures small { result < 2 ^ tests_among net.now targets.now }
        ensures digits { (word : List ℕ) (r : Run) → StandsFor self.now r → (k t : ℕ) → slice_get targets.now k ≡ Some t
            → HasDigit net.now targets.now result (suc k) ↔ Passes net.now (P.values predicates.now) word r t }
    {
        let mut number = 0;
        for place in (0..targets.len()).rev() {
            let target = targets[place];
            if !is_test_at(net, target) {
                continue;
            }
            let digit = if self.passes(net, predicates, target) {
                1
            } else {
                0
            };
            number = 2 * number + digit;
        }
        number
    }

    /// The alternatives whose tests are all true now. There is no memory for more of them than a `u32` counts.
    fn allowed<P: Predicates>(
        &self,
        alloc: Global,
        net: &ParserNetwork,
        predicates: &P,
        targets: &[u32],
    ) -> Result<Vec<u32>, AllocError>
        requires ready { IsReady net.now }
        requires within { All (λ t. t < length net.now.states) targets.now }
        ensures { (word : List ℕ) (r : Run) → StandsFor self.now r → IfOk result (λ found. (i : ℕ)
            → Contains found.items i ↔ PassesAmong net.now (P.values predicates.now) word r targets.now (length targets.now) i) }
    {
        let mut found = Vec::new(alloc);
        for (before, target) in targets.iter().enumerate() {
            let Ok(alternative) = u32::try_from(before + 1) else {
                return Err(AllocError);
            };
            if !self.passes(net, predicates, *target) {
                continue;
            }
            found.push(alternative)?;
        }
        Ok(found)
    }

    /// The condition of the decision now, if it has one: the level of the open rule, or the digits of its tests.
    pub fn condition<P: Predicates>(
        &self,
        decisions: &DecisionNet,
        predicates: &P,
        targets: &[u32],
    ) -> Option<u32>
        requires ready { IsReady decisions.now.net }
        requires loops { HasLoops decisions.now.net }
        requires decides { state_at decisions.now.net self.now.state ≡ Some (Decision targets.now) }
        ensures { (word : List ℕ) (r : Run) → StandsFor self.now r
            → GivesCondition decisions.now.net (P.values predicates.now) word r result }
    {
        match decisions.tests_of(self.state) {
            Tests::Levels => Some(self.newest().level),
            Tests::Few => Some(self.digits(decisions.net(), predicates, targets)),
            Tests::Many => None,
        }
    }

    /// What full stacks choose over the alternatives whose tests are all true now.
    fn chosen_by_stack<P: Predicates>(
        &self,
        alloc: Global,
        net: &ParserNetwork,
        predicates: &P,
        targets: &[u32],
        tokens: &[Token],
    ) -> Result<u32, DecideFault>
        requires deciding { IsDeciding net.now (length tokens.now) self.now }
        requires decides { state_at net.now self.now.state ≡ Some (Decision targets.now) }
        requires many { HasTests net.now self.now.state Many }
        requires ends { EndsInEnd (word_of tokens.now) }
        requires few { length tokens.now < 2 ^ 32 }
        ensures { (r : Run) → StandsFor self.now r → IsPredicted net.now (P.values predicates.now) (word_of tokens.now) r result }
    {
        let found = self.allowed(alloc, net, predicates, targets)?;
        let allowed = Allowed::Listed(Sequence::new(found));
        let returns = self.returns.as_slice();
        decide_by_stack(
            alloc, net, self.state, &allowed, returns, tokens, self.place,
        )
    }

    /// The alternative that prediction chooses now where the stack matters and few symbols do not settle it. A trial of the run may find
    /// it; one is made for a file.
    fn chosen_far<B: Home<DecisionNet>, P: Predicates>(
        &self,
        alloc: Global,
        store: &Store<B>,
        memory: &mut Memory<B>,
        predicates: &P,
        condition: u32,
        tokens: &[Token],
        trial: &mut Trial,
    ) -> Result<u32, DecideFault>
        requires plan { IsPlan B.plan }
        requires deciding { IsDeciding B.plan.net.net (length tokens.now) self.now }
        requires decides { IsDecision B.plan.net.net self.now.state }
        requires condition { (r : Run) → StandsFor self.now r
            → IsConditionAt B.plan.net.net (P.values predicates.now) (word_of tokens.now) r condition }
        requires matters { IsSensitive B.plan.net.net self.now.state condition (drop self.now.place (word_of tokens.now)) }
        requires foreseen { IsForeseen B.plan.net.net (P.values predicates.now) (word_of tokens.now) self.now trial.old }
        requires ends { EndsInEnd (word_of tokens.now) }
        requires few { length tokens.now < 2 ^ 32 }
        ensures chosen { IsChosen B.plan.net.net self.now.state condition (reverse self.now.returns.items)
            (drop self.now.place (word_of tokens.now)) self.now.place result }
        ensures foresees { (r : Run) → Foresees B.plan.net.net (P.values predicates.now) (word_of tokens.now) trial.old r
            → Foresees B.plan.net.net (P.values predicates.now) (word_of tokens.now) trial.new r }
    {
        trial.make(alloc, store, memory, predicates, tokens)?;
        let known = trial.next();
        let returns = self.returns.as_slice();
        decide_far(
            alloc, store, memory, self.state, condition, known, returns, tokens, self.place,
        )
    }

    /// The alternative that prediction chooses now under this condition.
    fn chosen_under<B: Home<DecisionNet>, R: Wait, L: Ledger, P: Predicates>(
        &self,
        rt: &R,
        alloc: Global,
        store: &Store<B>,
        pass: &mut Pass<B>,
        memory: &mut Memory<B>,
        predicates: &P,
        condition: u32,
        tokens: &[Token],
        trial: &mut Trial,
        steps: &mut Steps<L>,
    ) -> Result<u32, DecideFault>
        requires plan { IsPlan B.plan }
        requires deciding { IsDeciding B.plan.net.net (length tokens.now) self.now }
        requires decides { IsDecision B.plan.net.net self.now.state }
        requires condition { (r : Run) → StandsFor self.now r
            → IsConditionAt B.plan.net.net (P.values predicates.now) (word_of tokens.now) r condition }
        requires foreseen { IsForeseen B.plan.net.net (P.values predicates.now) (word_of tokens.now) self.now trial.old }
        requires symbols { All IsSymbol (word_of tokens.now) }
        requires ends { EndsInEnd (word_of tokens.now) }
        requires few { length tokens.now < 2 ^ 32 }
        ensures predicted { (r : Run) → StandsFor self.now r
            → IsPredicted B.plan.net.net (P.values predicates.now) (word_of tokens.now) r result }
        ensures foresees { (r : Run) → Foresees B.plan.net.net (P.values predicates.now) (word_of tokens.now) trial.old r
            → Foresees B.plan.net.net (P.values predicates.now) (word_of tokens.now) trial.new r }
        ensures kept { HasKept pass.old pass.new }
        ensures taught { HadMemory result → (r : Run) → StandsFor self.now r
            → IsTaught B.plan (IsPassedAt B.plan.net (P.values predicates.now) (word_of tokens.now) r) pass.old pass.new }
    {
        let known = trial.next();
        let returns = self.returns.as_slice();
        match decide(
            rt, alloc, store, pass, memory, self.state, condition, known, returns, tokens,
            self.place, steps,
        ) {
            Ok(Decided::Chosen(alternative)) => Ok(alternative),
            Ok(Decided::Far) => self.chosen_far(
                alloc, store, memory, predicates, condition, tokens, trial,
            ),
            Err(fault) => Err(fault),
        }
    }

    /// The alternative that prediction chooses now.
    pub fn chosen<B: Home<DecisionNet>, R: Wait, L: Ledger, P: Predicates>(
        &self,
        rt: &R,
        alloc: Global,
        store: &Store<B>,
        pass: &mut Pass<B>,
        memory: &mut Memory<B>,
        predicates: &P,
        targets: &[u32],
        tokens: &[Token],
        trial: &mut Trial,
        steps: &mut Steps<L>,
    ) -> Result<u32, DecideFault>
        requires plan { IsPlan B.plan }
        requires deciding { IsDeciding B.plan.net.net (length tokens.now) self.now }
        requires decides { state_at B.plan.net.net self.now.state ≡ Some (Decision targets.now) }
        requires foreseen { IsForeseen B.plan.net.net (P.values predicates.now) (word_of tokens.now) self.now trial.old }
        requires symbols { All IsSymbol (word_of tokens.now) }
        requires ends { EndsInEnd (word_of tokens.now) }
        requires few { length tokens.now < 2 ^ 32 }
        ensures predicted { (r : Run) → StandsFor self.now r
            → IsPredicted B.plan.net.net (P.values predicates.now) (word_of tokens.now) r result }
        ensures foresees { (r : Run) → Foresees B.plan.net.net (P.values predicates.now) (word_of tokens.now) trial.old r
            → Foresees B.plan.net.net (P.values predicates.now) (word_of tokens.now) trial.new r }
        ensures kept { HasKept pass.old pass.new }
        ensures taught { HadMemory result → (r : Run) → StandsFor self.now r
            → IsTaught B.plan (IsPassedAt B.plan.net (P.values predicates.now) (word_of tokens.now) r) pass.old pass.new }
    {
        let decisions = store.net();
        match self.condition(decisions, predicates, targets) {
            Some(condition) => self.chosen_under(
                rt, alloc, store, pass, memory, predicates, condition, tokens, trial, steps,
            ),
            None => self.chosen_by_stack(alloc, decisions.net(), predicates, targets, tokens),
        }
    }
}
