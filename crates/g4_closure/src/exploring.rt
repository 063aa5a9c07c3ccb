// From which states a rule can end without a symbol read, and an order of states in which none leads to an earlier one.
ghost use Rattle.std.specs.Prelude.{◌≡◌, ◌*◌, ◌⊎◌, ℕ, Contains, IfOk, IfSome, Some};
ghost use Rattle.g4_closure.specs.Ends.{AreEnds, EndsFrom, IsEnd, IsMarked, IsMoreEnds};

use g4_net::{ParserNetwork, State};
use g4_tokens::Symbols;
use std::alloc::{AllocError, Global};

/// How many edges are gone along from one state, at most.
const MOST_EDGES: usize = 1_000_000_000;

/// What is known of a state.
#[derive(Clone, Copy)]
pub(crate) enum Mark {
    /// Nothing.
    New,
    /// It was come to, and not all that it leads to is known.
    Open,
    /// How many states were left before it. Its rule may end from it only after a symbol.
    Done(u32),
    /// The same of a state from which this rule, which is that of the state, can end without a symbol read.
    Ends { before: u32, rule: u32 },
}

/// A state that was come to, and how many of its edges were gone along.
#[derive(Clone, Copy)]
struct Visit {
    state: u32,
    edge: usize,
}

/// What is known of each state by its number. States are left after all that they lead to, what calls lead to and what is after a
/// call of a rule that can end without a symbol included: so what was left later leads to nothing that was left later still.
#[derive(Drop)]
pub(crate) struct Explored {
    marks: Vec<Mark>,
    visits: Vec<Visit>,
    left: u32,
}

/// The target of the one edge.
fn only(target: u32, edge: usize) -> Option<u32> {
    if edge == 0 { Some(target) } else { None }
}

impl Explored {
    /// Nothing is known.
    pub(crate) fn new(alloc: Global, net: &ParserNetwork) -> Result<Explored, AllocError>
        ensures { IfOk result (λ explored. AreEnds net.now explored.marks.items) }
    {
        let marks = vec![in alloc; Mark::New; net.states.as_slice().len()]?;
        Ok(Explored {
            marks,
            visits: Vec::new(alloc),
            left: 0,
        })
    }

    /// The rule of the state, if it is known that it can end from there without a symbol read.
    pub(crate) fn ends(&self, state: u32) -> Option<u32>
        ensures { IfSome result (IsEnd self.now.marks.items state) }
    {
        match self.marks.as_slice().get(state as usize).copied() {
            Some(Mark::Ends { rule, .. }) => Some(rule),
            _ => None,
        }
    }

    /// How many states were left before this one: none where it is not known.
    pub(crate) fn before(&self, state: u32) -> u32 {
        match self.marks.as_slice().get(state as usize).copied() {
            Some(Mark::Ends { before, .. }) => before,
            Some(Mark::Done(before)) => before,
            _ => 0,
        }
    }

    /// Whether nothing is known of the state.
    fn is_new(&self, state: u32) -> bool {
        matches!(self.marks.as_slice().get(state as usize), Some(Mark::New))
    }

    /// Marks a state.
    fn mark(&mut self, state: u32, mark: Mark)
        ensures { IsMarked self.old.marks.items state mark self.new.marks.items }
    {
        if (state as usize) < self.marks.len() {
            self.marks[state as usize] = mark;
        }
    }

    /// Where an edge of the state leads, by its place.
    fn target(&self, state: &State<Symbols>, edge: usize) -> Option<u32> {
        match state {
            State::Decision(targets) => targets.as_slice().get(edge).copied(),
            State::Empty(to) => only(*to, edge),
            State::Action(to) => only(*to, edge),
            State::Level(_, to) => only(*to, edge),
            State::Predicate(_, to) => only(*to, edge),
            State::Call { rule, back, .. } => self.around(rule.checked_mul(2)?, *back, edge),
            State::Edge(..) => None,
            State::End(_) => None,
        }
    }

    /// Where a call leads: first to the start of the rule, then to what is after the call, if the rule can end.
    fn around(&self, start: u32, back: u32, edge: usize) -> Option<u32> {
        if edge == 0 {
            return Some(start);
        }
        if edge == 1 && self.ends(start).is_some() {
            return Some(back);
        }
        None
    }

    /// The rule of one of the states, if it is known that it can end from there.
    fn first_end(&self, targets: &[u32]) -> Option<u32>
        ensures { IfSome result (λ rule. (t : ℕ) × Contains targets.now t × IsEnd self.now.marks.items t rule) }
    {
        for target in targets {
            if let Some(rule) = self.ends(*target) {
                return Some(rule);
            }
        }
        None
    }

    /// The rule of what is after a call, if it is known that both can end.
    fn end_around(&self, start: u32, back: u32) -> Option<u32>
        ensures { IfSome result (λ rule. (called : ℕ) × IsEnd self.now.marks.items start called × IsEnd self.now.marks.items back rule) }
    {
        self.ends(start)?;
        let rule = self.ends(back)?;
        Some(rule)
    }

    /// The rule of the state, if it is known that it can end from what the state leads to.
    fn end_of(&self, state: &State<Symbols>) -> Option<u32>
        ensures { IfSome result (EndsFrom self.now.marks.items (Some state.now)) }
    {
        match state {
            State::Decision(targets) => self.first_end(targets.as_slice()),
            State::Empty(to) => self.ends(*to),
            State::Action(to) => self.ends(*to),
            State::Level(_, to) => self.ends(*to),
            State::Predicate(_, to) => self.ends(*to),
            State::Call { rule, back, .. } => {
                let start = rule.checked_mul(2)?;
                self.end_around(start, *back)
            }
            State::Edge(..) => None,
            State::End(rule) => Some(*rule),
        }
    }

    /// Comes to a state, if nothing is known of it.
    fn enter(&mut self, state: u32) -> Result<(), AllocError>
        ensures { (p rule : ℕ) → IsEnd self.new.marks.items p rule → IsEnd self.old.marks.items p rule }
    {
        if !self.is_new(state) {
            return Ok(());
        }
        self.mark(state, Mark::Open);
        self.visits.push(Visit { state, edge: 0 })?;
        Ok(())
    }

    /// Leaves a state.
    fn leave(&mut self, number: u32, state: &State<Symbols>)
        ensures { IsMoreEnds self.old.marks.items number (Some state.now) self.new.marks.items }
    {
        let before = self.left;
        self.left = before.saturating_add(1);
        match self.end_of(state) {
            Some(rule) => self.mark(number, Mark::Ends { before, rule }),
            None => self.mark(number, Mark::Done(before)),
        }
    }

    /// Goes along one edge more of a state that was come to, or leaves it.
    fn visit(&mut self, net: &ParserNetwork, at: Visit) -> Result<(), AllocError>
        requires { AreEnds net.now self.old.marks.items }
        ensures { AreEnds net.now self.new.marks.items }
    {
        let Some(state) = net.states.as_slice().get(at.state as usize) else {
            return Ok(());
        };
        match self.target(state, at.edge) {
            Some(target) => {
                self.visits.push(Visit {
                    edge: at.edge.saturating_add(1),
                    ..at
                })?;
                self.enter(target)?;
                Ok(())
            }
            None => {
                self.leave(at.state, state);
                Ok(())
            }
        }
    }

    /// Goes along all ways from a state.
    pub(crate) fn explore(&mut self, net: &ParserNetwork, state: u32) -> Result<(), AllocError>
        requires { AreEnds net.now self.old.marks.items }
        ensures { AreEnds net.now self.new.marks.items }
    {
        self.enter(state)?;
        for _ in 0..MOST_EDGES {
            let Some(at) = self.visits.pop() else {
                return Ok(());
            };
            self.visit(net, at)?;
        }
        Ok(())
    }
}
