// The search for the states of a rule, from its start and its end along the edges.
ghost use Rattle.std.specs.Prelude.{◌≡◌, ◌+◌, ◌↔◌, ◌∷◌, [], false, IfNone, IfOk, IfSome, IsTrue, List, OnOk, OnSome, length, replicate, slice_get, ℕ};
ghost use Rattle.g4_net.specs.Network.{ParserNetwork as Net, state_at};
ghost use Rattle.g4_netlist.specs.Searching.{AreMarks, IsNew, IsUnderWay, targets_by, targets_of, work_left};

use g4_net::{ParserNetwork, State};
use g4_tokens::Symbols;
use std::alloc::{AllocError, Global};
use std::slice;

/// The states to which the edges of a state lead, in order: a call leads to the state to which it returns.
fn targets(state: &State<Symbols>) -> &[u32]
    ensures { result.now ≡ targets_of state.now }
{
    match state {
        State::Decision(targets) => targets.as_slice(),
        State::End(_) => &[],
        State::Edge(_, target) => slice::from_ref(target),
        State::Call { back, .. } => slice::from_ref(back),
        State::Predicate(_, target) => slice::from_ref(target),
        State::Level(_, target) => slice::from_ref(target),
        State::Action(target) => slice::from_ref(target),
        State::Empty(target) => slice::from_ref(target),
    }
}

/// The states to which the edges of the state of this number lead.
fn targets_at(net: &ParserNetwork, state: usize) -> &[u32]
    ensures { result.now ≡ targets_by (state_at net.now state) }
{
    match net.states.as_slice().get(state) {
        Some(state) => targets(state),
        None => &[],
    }
}

/// What is found so far.
#[derive(Drop)]
struct Search {
    /// Of each state whether it is found.
    found: Vec<bool>,
    /// The states that are found and whose edges are still to be followed.
    waiting: Vec<usize>,
}

impl Search {
    /// None of `count` states is found.
    fn new(alloc: Global, count: usize) -> Result<Search, AllocError>
        ensures found { IfOk result (λ s. s.found.items ≡ replicate count false) }
        ensures waiting { IfOk result (λ s. s.waiting.items ≡ []) }
    {
        let found = vec![in alloc; false; count]?;
        Ok(Search {
            found,
            waiting: Vec::new(alloc),
        })
    }

    /// Whether the state is one of the network's that is not found yet.
    fn is_new(&self, state: usize) -> bool
        ensures { IsTrue result ↔ IsNew self.now.found.items state }
    {
        state < self.found.len() && !self.found[state]
    }

    /// Marks a state, if it is new, and lets it wait.
    fn reach(&mut self, state: usize) -> Result<(), AllocError>
        ensures under_way { (net : Net) (rule : ℕ) (left : List ℕ) → IsUnderWay net rule (state ∷ left) self.old
            → OnOk result (IsUnderWay net rule left self.new) }
        ensures work { OnOk result (work_left self.new ≡ work_left self.old) }
    {
        if self.is_new(state) {
            self.waiting.push(state)?;
            self.found[state] = true;
        }
        Ok(())
    }

    /// Marks each of the states that is new.
    fn reach_all(&mut self, states: &[u32]) -> Result<(), AllocError>
        ensures under_way { (net : Net) (rule : ℕ) → IsUnderWay net rule states.now self.old
            → OnOk result (IsUnderWay net rule [] self.new) }
        ensures work { OnOk result (work_left self.new ≡ work_left self.old) }
    {
        for state in states {
            self.reach(*state as usize)?;
        }
        Ok(())
    }

    /// A state whose edges are to be followed now, if one waits.
    fn next(&mut self) -> Option<usize>
        ensures under_way { IfSome result (λ p. (net : Net) (rule : ℕ) → IsUnderWay net rule [] self.old
            → IsUnderWay net rule (targets_by (state_at net p)) self.new) }
        ensures work { OnSome result (work_left self.new + 1 ≡ work_left self.old) }
        ensures done { IfNone result (self.old.waiting.items ≡ []) }
        ensures same { IfNone result (self.new.found.items ≡ self.old.found.items) }
    {
        let state = self.waiting.pop()?;
        Some(state)
    }
}

/// Of each state whether it is a state of the rule.
pub(crate) fn states_of(
    alloc: Global,
    net: &ParserNetwork,
    rule: u32,
) -> Result<Vec<bool>, AllocError>
    ensures { IfOk result (λ found. AreMarks net.now rule found.items) }
{
    let start = 2 * (rule as usize);
    let mut search = Search::new(alloc, net.states.len())?;
    search.reach(start)?;
    search.reach(start + 1)?;
    while let Some(state) = search.next() {
        search.reach_all(targets_at(net, state))?;
    }
    let Search { found, .. } = search;
    Ok(found)
}
