// A trial of the run: at each decision it takes the least alternative that is left after some symbols. Where it comes to the end, the run
// takes the same alternatives.
ghost use Rattle.std.specs.Prelude.{◌≡◌, ◌<◌, ◌^◌, ℕ, IfOk, IfSome, List, Some, length, true};
ghost use Rattle.g4_learned.specs.Stored.{IsPlan};
ghost use Rattle.g4_net.specs.Network.{ParserNetwork as Net, state_at};
ghost use Rattle.g4_net.specs.declared.network.State.TheVariants.{Decision};
ghost use Rattle.g4_run.specs.Running.{Goes, Run, Values, beginning, deepest};
ghost use Rattle.g4_run.specs.Trials.{TrialEnds};
ghost use Rattle.g4_parse.specs.Foresight.{Foresees, IsNextOf, LeadsOn, TakesBy, Tries, found_by};
ghost use Rattle.g4_parse.specs.Standing.{HasEnded, IsDeciding, IsUnderway, StandsFor};
ghost use Rattle.g4_tokens.specs.TokenList.{EndsInEnd, word_of};

use crate::parser::{ParseFault, Parser};
use crate::predicates::Predicates;
use crate::state::state_of;
use g4_full::Memory;
use g4_learned::{DecisionNet, Store};
use g4_net::{ParserNetwork, State};
use g4_store::view::Home;
use g4_tokens::Token;
use std::alloc::{AllocError, Global};

/// How many symbols the first trial looks at for one decision.
const FEW: usize = 8;

/// How many symbols the second trial looks at, where the first did not come to the end.
const MORE: usize = 64;

/// What a trial has found.
#[derive(Drop)]
pub(crate) enum Found {
    /// No trial was made.
    Nothing,
    /// The trial did not come to the end.
    NoEnd,
    /// A trial from the run's beginning came to the end, with these alternatives at its decisions.
    Alternatives(Vec<u32>),
}

impl Found {
    /// What is found by a trial that was made.
    fn of(alternatives: Option<Vec<u32>>) -> Found
        ensures { result ≡ found_by alternatives }
    {
        match alternatives {
            Some(alternatives) => Found::Alternatives(alternatives),
            None => Found::NoEnd,
        }
    }
}

/// How many decisions a run has taken, and what a trial of it has found.
#[derive(Drop)]
pub(crate) struct Trial {
    pub(crate) decided: usize,
    pub(crate) found: Found,
}

impl Trial {
    /// With no decision taken and no trial made.
    pub fn new() -> Trial
        ensures { (net : Net) (values : Values) (word : List ℕ) → Foresees net values word result beginning }
    {
        Trial {
            decided: 0,
            found: Found::Nothing,
        }
    }

    /// Whether a trial was made.
    fn is_made(&self) -> bool {
        !matches!(self.found, Found::Nothing)
    }

    /// Makes a trial, if none was made before: one that looks at few symbols, and where it does not come to the end one that looks at more.
    pub fn make<B: Home<DecisionNet>, P: Predicates>(
        &mut self,
        alloc: Global,
        store: &Store<B>,
        memory: &mut Memory<B>,
        predicates: &P,
        tokens: &[Token],
    ) -> Result<(), AllocError>
        requires ends { EndsInEnd (word_of tokens.now) }
        requires few { length tokens.now < 2 ^ 32 }
        ensures { (r : Run) → Foresees B.plan.net.net (P.values predicates.now) (word_of tokens.now) self.old r
            → Foresees B.plan.net.net (P.values predicates.now) (word_of tokens.now) self.new r }
    {
        if self.is_made() {
            return Ok(());
        }
        let decisions = store.net();
        let found = match try_run(alloc, decisions, memory, predicates, tokens, FEW)? {
            Some(alternatives) => Some(alternatives),
            None => try_run(alloc, decisions, memory, predicates, tokens, MORE)?,
        };
        self.note(found);
        Ok(())
    }

    /// The alternative of the next decision, if a trial has found it.
    pub fn next(&self) -> Option<u32>
        ensures { IfSome result (IsNextOf self.now) }
    {
        match &self.found {
            Found::Alternatives(alternatives) => alternatives.as_slice().get(self.decided).copied(),
            _ => None,
        }
    }

    /// Notes what a trial has found, if none was made before.
    fn note(&mut self, found: Option<Vec<u32>>)
        ensures { (net : Net) (values : Values) (word : List ℕ) (r : Run)
            → IfSome found (λ alternatives. TrialEnds net values word beginning alternatives.items)
            → Foresees net values word self.old r → Foresees net values word self.new r }
    {
        if let Found::Nothing = &self.found {
            self.found = Found::of(found);
        }
    }

    /// One more decision is taken.
    pub fn take_decision(&mut self)
        ensures { (net : Net) (values : Values) (word : List ℕ) (r s : Run) → LeadsOn net values word 1 r s
            → Foresees net values word self.old r → Foresees net values word self.new s }
    {
        match self.decided.checked_add(1) {
            Some(decided) => self.decided = decided,
            None => self.found = Found::NoEnd,
        }
    }
}

impl Parser {
    /// Takes the least alternative that is left after so many symbols, if one is left.
    fn try_alternative<B: Home<DecisionNet>, P: Predicates>(
        &mut self,
        alloc: Global,
        decisions: &DecisionNet,
        memory: &mut Memory<B>,
        predicates: &P,
        targets: &[u32],
        tokens: &[Token],
        most: usize,
    ) -> Result<Option<u32>, AllocError>
        requires own { decisions.now ≡ B.plan.net }
        requires plan { IsPlan B.plan }
        requires deciding { IsDeciding decisions.now.net (length tokens.now) self.old }
        requires decides { state_at decisions.now.net self.old.state ≡ Some (Decision targets.now) }
        requires ends { EndsInEnd (word_of tokens.now) }
        requires few { length tokens.now < 2 ^ 32 }
        ensures { (r : Run) → StandsFor self.old r
            → IfOk result (λ found. IfSome found (TakesBy decisions.now.net (P.values predicates.now) (word_of tokens.now) r self.new)) }
    {
        let net = decisions.net();
        let Some(condition) = self.condition(decisions, predicates, targets) else {
            return Ok(None);
        };
        let returns = self.returns.as_slice();
        let rest = &tokens[self.place as usize..];
        let found = memory.candidate(alloc, net, self.state, condition, returns, rest, most)?;
        let Some(alternative) = found else {
            return Ok(None);
        };
        self.go_to(net, targets, alternative);
        Ok(Some(alternative))
    }

    /// One step of the run at a state that is no decision, if there is one.
    fn try_step<P: Predicates>(
        &mut self,
        net: &ParserNetwork,
        predicates: &P,
        tokens: &[Token],
    ) -> Result<bool, AllocError>
        requires underway { IsUnderway net.now (length tokens.now) self.old }
        requires goes_on { HasEnded net.now self.old → ⊥ }
        requires chooses_none { (targets : List ℕ) → state_at net.now self.old.state ≡ Some (Decision targets) → ⊥ }
        requires few { length tokens.now < 2 ^ 32 }
        ensures { (r : Run) → StandsFor self.old r → IfOk result (λ went. went ≡ true
            → (s : Run) × Goes net.now (P.values predicates.now) (word_of tokens.now) deepest r s × StandsFor self.new s) }
    {
        match self.step(net, predicates, tokens) {
            Ok(()) => Ok(true),
            Err(ParseFault::NoMemory) => Err(AllocError),
            Err(_) => Ok(false),
        }
    }

    /// One step of a trial, if there is one. The alternative that is taken is added.
    fn try_turn<B: Home<DecisionNet>, P: Predicates>(
        &mut self,
        alloc: Global,
        decisions: &DecisionNet,
        memory: &mut Memory<B>,
        predicates: &P,
        tokens: &[Token],
        most: usize,
        alternatives: &mut Vec<u32>,
    ) -> Result<bool, AllocError>
        requires own { decisions.now ≡ B.plan.net }
        requires plan { IsPlan B.plan }
        requires underway { IsUnderway decisions.now.net (length tokens.now) self.old }
        requires goes_on { HasEnded decisions.now.net self.old → ⊥ }
        requires ends { EndsInEnd (word_of tokens.now) }
        requires few { length tokens.now < 2 ^ 32 }
        ensures { (r : Run) → StandsFor self.old r → IfOk result (λ went. went ≡ true
            → (s : Run) × Tries decisions.now.net (P.values predicates.now) (word_of tokens.now) r s alternatives.old.items
            alternatives.new.items × StandsFor self.new s) }
    {
        let net = decisions.net();
        if let State::Decision(targets) = state_of(net, self.state) {
            let targets = targets.as_slice();
            let found = self.try_alternative(
                alloc, decisions, memory, predicates, targets, tokens, most,
            )?;
            let Some(alternative) = found else {
                return Ok(false);
            };
            alternatives.push(alternative)?;
            return Ok(true);
        }
        self.try_step(net, predicates, tokens)
    }
}

/// The alternatives that a trial from the run's beginning takes which looks at so many symbols, if it comes to the end of the tokens.
fn try_run<B: Home<DecisionNet>, P: Predicates>(
    alloc: Global,
    decisions: &DecisionNet,
    memory: &mut Memory<B>,
    predicates: &P,
    tokens: &[Token],
    most: usize,
) -> Result<Option<Vec<u32>>, AllocError>
    requires own { decisions.now ≡ B.plan.net }
    requires plan { IsPlan B.plan }
    requires ends { EndsInEnd (word_of tokens.now) }
    requires few { length tokens.now < 2 ^ 32 }
    ensures { IfOk result (λ found. IfSome found (λ alternatives. TrialEnds decisions.now.net (P.values predicates.now)
        (word_of tokens.now) beginning alternatives.items)) }
{
    let net = decisions.net();
    let mut parser = Parser::new(alloc);
    let mut alternatives = Vec::new(alloc);
    'trial: while !parser.has_ended(net) {
        let went = parser.try_turn(
            alloc,
            decisions,
            memory,
            predicates,
            tokens,
            most,
            &mut alternatives,
        )?;
        if !went {
            return Ok(None);
        }
    }
    if (parser.place as usize) < tokens.len() {
        return Ok(None);
    }
    Ok(Some(alternatives))
}
