// The states of elements while they are made. A state where something ends is filled once it is known what follows.
ghost use Rattle.std.specs.Prelude.{◌≡◌, ◌≤◌, ◌<◌, ℕ, ◌+◌, IfOk, length};
ghost use Rattle.g4_source.specs.Full.{IsSome, IsFull, AreFull, EachIsFull};
ghost use Rattle.g4_source.specs.declared.element.Repeat.TheVariants.{Once};
ghost use Rattle.g4_layout.specs.Layout.{with_exit};
ghost use Rattle.g4_layout.specs.Size.{states_of, states_in_order, states_of_bodies};
ghost use Rattle.g4_states.specs.Drafts.{Among, choice_of, linked, stepped, joined, passed_by, starred, repeated_once, closed, states_after, AreApart, IsLaid, AreLaid, AreBeside, BlockIsLaid, states_of_block};
ghost use Rattle.g4_states.specs.Trees.{tree_of, run_of, sides_of, bodies_over};
ghost use Rattle.g4_net.specs.declared.network.TheConstants.{MOST_STATES};

use crate::atom::Atom;
use crate::atomic::Body;
use g4_base::Sequence;
use g4_grammar::Step;
use g4_net::State;
use g4_source::{Alternative, Element, Repeat};
use std::alloc::{AllocError, Global};

/// Where alternatives side by side begin, and where they end.
#[derive(Drop)]
pub struct Bodies {
    pub firsts: Vec<u32>,
    pub lasts: Vec<u32>,
}

/// Fills the last states with empty edges to a state.
pub fn link<L: Drop>(states: &mut Vec<State<L>>, lasts: &[u32], to: u32)
    requires { (p : ℕ) → Among lasts.now p → p < length states.old.items }
    ensures { states.new.items ≡ linked to lasts.now states.old.items }
{
    for last in lasts {
        states[*last as usize] = State::Empty(to);
    }
}

/// The state from which a choice of bodies begins.
fn choice_of<L>(alloc: Global, firsts: &[u32]) -> Result<State<L>, AllocError>
    ensures { IfOk result (λ state. state ≡ choice_of firsts.now) }
{
    if let [first] = firsts {
        return Ok(State::Empty(*first));
    }
    let targets = firsts.iter().copied().collect(alloc)?;
    Ok(State::Decision(Sequence::new(targets)))
}

/// The edges of a decision over bodies: the exit branch last where it is greedy, else first.
fn with_exit(
    alloc: Global,
    greedy: bool,
    firsts: Vec<u32>,
    exit: u32,
) -> Result<Vec<u32>, AllocError>
    ensures { IfOk result (λ targets. targets.items ≡ with_exit greedy firsts.items exit) }
{
    if greedy {
        let mut targets = firsts;
        targets.push(exit)?;
        return Ok(targets);
    }
    let mut targets = Vec::new(alloc);
    targets.push(exit)?;
    targets.extend_from_slice(firsts.as_slice())?;
    Ok(targets)
}

/// Leads from a state to the bodies, and from their ends to a new one.
fn join<L: Drop>(states: &mut Vec<State<L>>, bodies: Bodies, from: u32) -> Result<u32, AllocError>
    requires from { from < length states.old.items }
    requires lasts { (p : ℕ) → Among bodies.lasts.items p → p < length states.old.items }
    requires room { length states.old.items < MOST_STATES }
    ensures { IfOk result (λ t. (t ≡ length states.old.items)
        × (states.new.items ≡ joined from bodies.firsts.items bodies.lasts.items states.old.items)) }
{
    let Bodies { firsts, lasts } = bodies;
    let last = states.len() as u32;
    states[from as usize] = State::Decision(Sequence::new(firsts));
    link(states, lasts.as_slice(), last);
    states.push(State::Empty(0))?;
    Ok(last)
}

/// Leads from a state to the bodies or to a new exit branch, and from both on to another.
fn optional<L: Drop>(
    alloc: Global,
    states: &mut Vec<State<L>>,
    bodies: Bodies,
    from: u32,
    greedy: bool,
) -> Result<u32, AllocError>
    requires from { from < length states.old.items }
    requires lasts { (p : ℕ) → Among bodies.lasts.items p → p < length states.old.items }
    requires room { length states.old.items < 65535 }
    ensures { IfOk result (λ t. (t ≡ length states.old.items + 1)
        × (states.new.items ≡ passed_by greedy from bodies.firsts.items bodies.lasts.items states.old.items)) }
{
    let Bodies { firsts, lasts } = bodies;
    let exit = states.len() as u32;
    let targets = with_exit(alloc, greedy, firsts, exit)?;
    states[from as usize] = State::Decision(Sequence::new(targets));
    link(states, lasts.as_slice(), exit + 1);
    states.push(State::Empty(exit + 1))?;
    states.push(State::Empty(0))?;
    Ok(exit + 1)
}

/// Leads from a state to the bodies or on to a new one, and from the bodies' ends back.
fn star<L: Drop>(
    alloc: Global,
    states: &mut Vec<State<L>>,
    bodies: Bodies,
    from: u32,
    greedy: bool,
) -> Result<u32, AllocError>
    requires from { from < length states.old.items }
    requires lasts { (p : ℕ) → Among bodies.lasts.items p → p < length states.old.items }
    requires room { length states.old.items < MOST_STATES }
    ensures { IfOk result (λ t. (t ≡ length states.old.items)
        × (states.new.items ≡ starred greedy from bodies.firsts.items bodies.lasts.items states.old.items)) }
{
    let Bodies { firsts, lasts } = bodies;
    let exit = states.len() as u32;
    let targets = with_exit(alloc, greedy, firsts, exit)?;
    states[from as usize] = State::Decision(Sequence::new(targets));
    link(states, lasts.as_slice(), from);
    states.push(State::Empty(0))?;
    Ok(exit)
}

/// Leads from a state to the bodies, and from their ends to a new one, which leads to the bodies or on to another.
fn plus<L: Drop>(
    alloc: Global,
    states: &mut Vec<State<L>>,
    bodies: Bodies,
    from: u32,
    greedy: bool,
) -> Result<u32, AllocError>
    requires from { from < length states.old.items }
    requires lasts { (p : ℕ) → Among bodies.lasts.items p → p < length states.old.items }
    requires room { length states.old.items < 65535 }
    ensures { IfOk result (λ t. (t ≡ length states.old.items + 1)
        × (states.new.items ≡ repeated_once greedy from bodies.firsts.items bodies.lasts.items states.old.items)) }
{
    let Bodies { firsts, lasts } = bodies;
    let again = states.len() as u32;
    states[from as usize] = choice_of(alloc, firsts.as_slice())?;
    link(states, lasts.as_slice(), again);
    let targets = with_exit(alloc, greedy, firsts, again + 1)?;
    states.push(State::Decision(Sequence::new(targets)))?;
    states.push(State::Empty(0))?;
    Ok(again + 1)
}

/// Leads from a state to the bodies of a block and on, as often as they may be taken. Each of these answers the state where
/// what it lays ends, which is still to be filled.
fn close<L: Drop>(
    alloc: Global,
    states: &mut Vec<State<L>>,
    repeat: Repeat,
    bodies: Bodies,
    from: u32,
) -> Result<u32, AllocError>
    requires from { from < length states.old.items }
    requires lasts { (p : ℕ) → Among bodies.lasts.items p → p < length states.old.items }
    requires room { length states.old.items + states_after repeat ≤ MOST_STATES }
    ensures last { IfOk result (λ t. t + 1 ≡ length states.old.items + states_after repeat) }
    ensures states { IfOk result (λ t. states.new.items ≡ closed repeat from bodies.firsts.items bodies.lasts.items states.old.items) }
{
    let last = match repeat {
        Repeat::Once => join(states, bodies, from)?,
        Repeat::Optional(sign) => optional(alloc, states, bodies, from, sign.greedy)?,
        Repeat::Star(sign) => star(alloc, states, bodies, from, sign.greedy)?,
        Repeat::Plus(sign) => plus(alloc, states, bodies, from, sign.greedy)?,
    };
    Ok(last)
}

/// Lays one step from a state.
fn lay_step<L: Drop>(
    states: &mut Vec<State<L>>,
    step: Step<L>,
    from: u32,
) -> Result<u32, AllocError>
    requires from { from < length states.old.items }
    requires room { length states.old.items < MOST_STATES }
    ensures { IfOk result (λ t. (t ≡ length states.old.items) × (states.new.items ≡ stepped from step states.old.items)) }
{
    let next = states.len() as u32;
    states[from as usize] = match step {
        Step::Edge(label) => State::Edge(label, next),
        Step::Call { rule, level } => State::Call {
            rule,
            level,
            back: next,
        },
        Step::Predicate(number) => State::Predicate(number, next),
        Step::Level(level) => State::Level(level, next),
        Step::Action => State::Action(next),
        Step::Empty => State::Empty(next),
    };
    states.push(State::Empty(0))?;
    Ok(next)
}

/// Lays an element.
#[cycle(lay)]
fn lay_element<A: Atom>(
    alloc: Global,
    states: &mut Vec<State<A::Label>>,
    element: &Element<A>,
    from: u32,
) -> Result<u32, AllocError>
    requires full { IsFull (tree_of A.step element.now) }
    requires from { from < length states.old.items }
    requires room { length states.old.items + states_of (tree_of A.step element.now) ≤ MOST_STATES }
    ensures { IfOk result (λ t. IsLaid states.old.items states.new.items from t (tree_of A.step element.now)) }
{
    match element {
        Element::Atom(atom) => {
            let step = atom.step(alloc)?;
            let next = lay_step(states, step, from)?;
            Ok(next)
        }
        Element::Block(_, repeat, alternatives) => {
            let last = lay_block(alloc, states, *repeat, alternatives.as_slice(), from)?;
            Ok(last)
        }
    }
}

/// Lays a block of these alternatives, with this repeat.
#[cycle(lay)]
fn lay_block<A: Atom>(
    alloc: Global,
    states: &mut Vec<State<A::Label>>,
    repeat: Repeat,
    alternatives: &[Alternative<A>],
    from: u32,
) -> Result<u32, AllocError>
    requires some { IsSome (sides_of A.step alternatives.now) }
    requires full { EachIsFull (sides_of A.step alternatives.now) }
    requires from { from < length states.old.items }
    requires room { length states.old.items + states_of_block repeat (sides_of A.step alternatives.now) ≤ MOST_STATES }
    ensures { IfOk result (λ t. BlockIsLaid states.old.items states.new.items from t repeat (sides_of A.step alternatives.now)) }
{
    match repeat {
        Repeat::Once => lay_once(alloc, states, alternatives, from),
        _ => lay_apart(alloc, states, repeat, alternatives, from),
    }
}

/// Lays a block of these alternatives, which are taken once. One alternative is laid as it is.
#[cycle(lay)]
fn lay_once<A: Atom>(
    alloc: Global,
    states: &mut Vec<State<A::Label>>,
    alternatives: &[Alternative<A>],
    from: u32,
) -> Result<u32, AllocError>
    requires some { IsSome (sides_of A.step alternatives.now) }
    requires full { EachIsFull (sides_of A.step alternatives.now) }
    requires from { from < length states.old.items }
    requires room { length states.old.items + states_of_block Once (sides_of A.step alternatives.now) ≤ MOST_STATES }
    ensures { IfOk result (λ t. BlockIsLaid states.old.items states.new.items from t Once (sides_of A.step alternatives.now)) }
{
    match alternatives {
        [one] => {
            let last = lay_run(alloc, states, one.elements.as_slice(), from)?;
            Ok(last)
        }
        several => lay_apart(alloc, states, Repeat::Once, several, from),
    }
}

/// Lays a block whose alternatives are side by side.
#[cycle(lay)]
fn lay_apart<A: Atom>(
    alloc: Global,
    states: &mut Vec<State<A::Label>>,
    repeat: Repeat,
    alternatives: &[Alternative<A>],
    from: u32,
) -> Result<u32, AllocError>
    requires apart { AreApart repeat (length alternatives.now) }
    requires full { EachIsFull (sides_of A.step alternatives.now) }
    requires from { from < length states.old.items }
    requires room { length states.old.items + states_of_block repeat (sides_of A.step alternatives.now) ≤ MOST_STATES }
    ensures { IfOk result (λ t. BlockIsLaid states.old.items states.new.items from t repeat (sides_of A.step alternatives.now)) }
{
    let bodies = lay_sides(alloc, states, alternatives)?;
    let last = close(alloc, states, repeat, bodies, from)?;
    Ok(last)
}

/// Lays alternatives side by side.
#[cycle(lay)]
fn lay_sides<A: Atom>(
    alloc: Global,
    states: &mut Vec<State<A::Label>>,
    alternatives: &[Alternative<A>],
) -> Result<Bodies, AllocError>
    requires full { EachIsFull (sides_of A.step alternatives.now) }
    requires room { length states.old.items + states_of_bodies (sides_of A.step alternatives.now) ≤ MOST_STATES }
    ensures many { IfOk result (λ bodies. length bodies.firsts.items ≡ length alternatives.now) }
    ensures laid { IfOk result (λ bodies. AreBeside states.old.items states.new.items bodies.firsts.items bodies.lasts.items
        (sides_of A.step alternatives.now)) }
{
    let mut firsts = Vec::new(alloc);
    let mut lasts = Vec::new(alloc);
    for alternative in alternatives {
        let first = states.len() as u32;
        states.push(State::Empty(0))?;
        firsts.push(first)?;
        let last = lay_run(alloc, states, alternative.elements.as_slice(), first)?;
        lasts.push(last)?;
    }
    Ok(Bodies { firsts, lasts })
}

/// Lays elements one after another. Where there are none, nothing is made.
#[cycle(lay)]
pub fn lay_run<A: Atom>(
    alloc: Global,
    states: &mut Vec<State<A::Label>>,
    elements: &[Element<A>],
    from: u32,
) -> Result<u32, AllocError>
    requires full { AreFull (run_of A.step elements.now) }
    requires from { from < length states.old.items }
    requires room { length states.old.items + states_in_order (run_of A.step elements.now) ≤ MOST_STATES }
    ensures { IfOk result (λ t. AreLaid states.old.items states.new.items from t (run_of A.step elements.now)) }
{
    let mut last = from;
    for element in elements {
        last = lay_element(alloc, states, element, last)?;
    }
    Ok(last)
}

/// Lays alternatives of a rule side by side.
pub fn lay_bodies<A: Atom, B: Body<A>>(
    alloc: Global,
    states: &mut Vec<State<A::Label>>,
    alternatives: &[B],
) -> Result<Bodies, AllocError>
    requires full { EachIsFull (bodies_over A.step B.tree alternatives.now) }
    requires room { length states.old.items + states_of_bodies (bodies_over A.step B.tree alternatives.now) ≤ MOST_STATES }
    ensures many { IfOk result (λ bodies. length bodies.firsts.items ≡ length alternatives.now) }
    ensures laid { IfOk result (λ bodies. AreBeside states.old.items states.new.items bodies.firsts.items bodies.lasts.items
        (bodies_over A.step B.tree alternatives.now)) }
{
    let mut firsts = Vec::new(alloc);
    let mut lasts = Vec::new(alloc);
    for alternative in alternatives {
        let first = states.len() as u32;
        states.push(State::Empty(0))?;
        firsts.push(first)?;
        let last = lay_run(alloc, states, alternative.elements(), first)?;
        lasts.push(last)?;
    }
    Ok(Bodies { firsts, lasts })
}
