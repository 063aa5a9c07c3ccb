// The states of rules.
ghost use Rattle.std.specs.Prelude.{◌≡◌, ◌≤◌, ◌<◌, ◌+◌, ◌*◌, [], ◌∷◌, IfOk, OnOk, length, sum_by};
ghost use Rattle.g4_source.specs.Full.{EachIsFull};
ghost use Rattle.g4_net.specs.Network.{start_of};
ghost use Rattle.g4_layout.specs.Size.{states_of_rule};
ghost use Rattle.g4_states.specs.Rules.{RuleIsLaid, HasHeads, HaveLaid, TreeIsFull, AreFullTrees, ends_from};
ghost use Rattle.g4_states.specs.Trees.{bodies_over, rules_over};
ghost use Rattle.g4_net.specs.declared.network.TheConstants.{MOST_STATES};

use crate::atom::Atom;
use crate::atomic::{Body, LaidRule};
use crate::draft::{Bodies, lay_bodies, lay_run, link};
use g4_base::Sequence;
use g4_net::State;
use std::alloc::{AllocError, Global};

/// The starts and ends of `count` rules.
///
/// # Errors
/// No memory.
pub fn heads<L: Drop>(alloc: Global, count: u32) -> Result<Vec<State<L>>, AllocError>
    ensures { IfOk result (λ states. HasHeads count states.items) }
{
    let mut states = Vec::new(alloc);
    for rule in 0..count {
        states.push(State::Empty(0))?;
        states.push(State::End(rule))?;
    }
    Ok(states)
}

/// Lays a rule of one alternative from its start to its end.
fn lay_lone<A: Atom, B: Body<A>>(
    alloc: Global,
    states: &mut Vec<State<A::Label>>,
    rule: u32,
    alternative: &B,
) -> Result<(), AllocError>
    requires full { EachIsFull (bodies_over A.step B.tree (alternative.now ∷ [])) }
    requires rule { start_of rule < length states.old.items }
    requires room { length states.old.items + states_of_rule (bodies_over A.step B.tree (alternative.now ∷ [])) ≤ MOST_STATES }
    ensures { OnOk result (RuleIsLaid states.old.items states.new.items rule (bodies_over A.step B.tree (alternative.now ∷ []))) }
{
    let start = 2 * rule;
    let last = lay_run(alloc, states, alternative.elements(), start)?;
    states[last as usize] = State::Empty(start + 1);
    Ok(())
}

/// Lays a rule of several alternatives from its start to its end.
fn lay_several<A: Atom, B: Body<A>>(
    alloc: Global,
    states: &mut Vec<State<A::Label>>,
    rule: u32,
    alternatives: &[B],
) -> Result<(), AllocError>
    requires full { EachIsFull (bodies_over A.step B.tree alternatives.now) }
    requires several { 2 ≤ length alternatives.now }
    requires rule { start_of rule < length states.old.items }
    requires room { length states.old.items + states_of_rule (bodies_over A.step B.tree alternatives.now) ≤ MOST_STATES }
    ensures { OnOk result (RuleIsLaid states.old.items states.new.items rule (bodies_over A.step B.tree alternatives.now)) }
{
    let start = 2 * rule;
    let bodies = lay_bodies::<A, B>(alloc, states, alternatives)?;
    let Bodies { firsts, lasts } = bodies;
    states[start as usize] = State::Decision(Sequence::new(firsts));
    link(states, lasts.as_slice(), start + 1);
    Ok(())
}

/// Lays a rule from its start to its end.
fn lay_rule<A: Atom, B: Body<A>>(
    alloc: Global,
    states: &mut Vec<State<A::Label>>,
    rule: u32,
    alternatives: &[B],
) -> Result<(), AllocError>
    requires full { TreeIsFull (bodies_over A.step B.tree alternatives.now) }
    requires rule { start_of rule < length states.old.items }
    requires room { length states.old.items + states_of_rule (bodies_over A.step B.tree alternatives.now) ≤ MOST_STATES }
    ensures { OnOk result (RuleIsLaid states.old.items states.new.items rule (bodies_over A.step B.tree alternatives.now)) }
{
    match alternatives {
        [one] => lay_lone::<A, B>(alloc, states, rule, one),
        several => lay_several::<A, B>(alloc, states, rule, several),
    }
}

/// Lays the rules, the first of which has this number, and answers where the states of each end.
///
/// # Errors
/// No memory.
pub fn lay_rules<A: Atom, B: Body<A>, R: LaidRule<B>>(
    alloc: Global,
    states: &mut Vec<State<A::Label>>,
    first: u32,
    rules: &[R],
) -> Result<Vec<u32>, AllocError>
    requires full { AreFullTrees (rules_over A.step B.tree R.bodies rules.now) }
    requires heads { start_of (first + length rules.now) ≤ length states.old.items }
    requires room { length states.old.items + sum_by states_of_rule (rules_over A.step B.tree R.bodies rules.now) ≤ MOST_STATES }
    ensures laid { OnOk result (HaveLaid first states.old.items states.new.items (first + length rules.now)
        (rules_over A.step B.tree R.bodies rules.now) []) }
    ensures ends { IfOk result (λ ends. ends.items ≡ ends_from (length states.old.items) (rules_over A.step B.tree R.bodies rules.now)) }
{
    let mut ends = Vec::new(alloc);
    let mut number = first;
    for rule in rules {
        lay_rule::<A, B>(alloc, states, number, rule.bodies())?;
        ends.push(states.len() as u32)?;
        number += 1;
    }
    Ok(ends)
}
