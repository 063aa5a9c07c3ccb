// Where a match may begin.
ghost use Rattle.std.specs.Prelude.{◌≡◌, ◌≤◌, ◌<◌, ◌+◌, ◌++◌, ℕ, List, IfOk, OnOk, Some, drop, length, replicate, slice_get, take};
ghost use Rattle.g4_names.specs.Places.{ArePlaces};
ghost use Rattle.g4_net.specs.Network.{start_of};
ghost use Rattle.g4_net.specs.declared.network.State.TheVariants.{Decision};
ghost use Rattle.g4_net.specs.declared.network.TheConstants.{MOST_STATES};
ghost use Rattle.g4_lexer_rules.specs.Starts.{AllCanStart, CanStart, matched_starts, mode_name, mode_starts, numbered_starts, rule_starts, starts_from, with_rule, with_rules, with_starts};

use g4_base::{Sequence, Text};
use g4_names::{Places, places_of};
use g4_net::State;
use g4_ordered::{Reads, Start};
use g4_source::{LexerAlternative, LexerRule};
use std::alloc::{AllocError, Global};
use std::mem;

/// Adds the starts of a rule whose alternatives begin at these states.
fn add_numbered(starts: &mut Vec<Start>, rule: u32, firsts: &[u32]) -> Result<(), AllocError>
    requires few { length firsts.now ≤ MOST_STATES }
    ensures { OnOk result (starts.new.items ≡ starts.old.items ++ numbered_starts rule 1 firsts.now) }
{
    let mut alternative = 1;
    for first in firsts {
        starts.push(Start {
            rule,
            alternative,
            state: *first,
        })?;
        alternative += 1;
    }
    Ok(())
}

/// Adds the starts of a rule of these alternatives.
fn add_rule(
    starts: &mut Vec<Start>,
    states: &[State<Reads>],
    rule: u32,
    alternatives: &[LexerAlternative],
) -> Result<(), AllocError>
    requires some { 1 ≤ length alternatives.now }
    requires within { start_of rule < length states.now }
    requires few { length states.now ≤ MOST_STATES }
    requires narrow { (targets : List ℕ) → 2 ≤ length alternatives.now
        → slice_get states.now (start_of rule) ≡ Some (Decision targets) → length targets ≤ MOST_STATES }
    ensures { OnOk result (starts.new.items ≡ starts.old.items ++ rule_starts states.now rule alternatives.now) }
{
    if alternatives.len() == 1 {
        starts.push(Start {
            rule,
            alternative: 1,
            state: 2 * rule,
        })?;
    } else if let State::Decision(firsts) = &states[2 * rule as usize] {
        add_numbered(starts, rule, firsts.as_slice())?;
    }
    Ok(())
}

/// Adds the starts of a rule of this number, if it is no fragment.
fn add_matched(
    starts: &mut Vec<Start>,
    states: &[State<Reads>],
    number: u32,
    rule: &LexerRule,
) -> Result<(), AllocError>
    requires can { CanStart states.now number rule.now }
    requires within { start_of number < length states.now }
    requires few { length states.now ≤ MOST_STATES }
    ensures { OnOk result (starts.new.items ≡ starts.old.items ++ matched_starts states.now number rule.now) }
{
    if !rule.fragment {
        add_rule(starts, states, number, rule.alternatives.as_slice())?;
    }
    Ok(())
}

/// Adds the starts of the rules, the first of which has this number, but those of fragments.
fn add_rules(
    starts: &mut Vec<Start>,
    states: &[State<Reads>],
    number: u32,
    rules: &[LexerRule],
) -> Result<(), AllocError>
    requires can { AllCanStart states.now number rules.now }
    requires within { start_of (number + length rules.now) ≤ length states.now }
    requires few { length states.now ≤ MOST_STATES }
    ensures { OnOk result (starts.new.items ≡ starts.old.items ++ starts_from states.now number rules.now) }
{
    let mut next = number;
    for rule in rules {
        add_matched(starts, states, next, rule)?;
        next += 1;
    }
    Ok(())
}

/// Adds starts to those of a mode, if there is such a mode.
fn add_starts(
    alloc: Global,
    all: &mut Vec<Sequence<Start>>,
    mode: u32,
    mut more: Vec<Start>,
) -> Result<(), AllocError>
    ensures { OnOk result (all.new.items ≡ with_starts mode more.items all.old.items) }
{
    if mode as usize >= all.len() {
        return Ok(());
    }
    let empty = Sequence::new(Vec::new(alloc));
    let list = mem::replace(&mut all[mode as usize], empty);
    let mut starts = list.into_vec();
    starts.append(&mut more)?;
    all[mode as usize] = Sequence::new(starts);
    Ok(())
}

/// The same starts in each of `count` modes.
fn starts_in_each(
    alloc: Global,
    front: &[Start],
    count: usize,
) -> Result<Vec<Sequence<Start>>, AllocError>
    ensures { IfOk result (λ all. all.items ≡ replicate count front.now) }
{
    let mut all = Vec::new(alloc);
    for _ in 0..count {
        all.push(Sequence::new(Vec::from_slice(alloc, front)?))?;
    }
    Ok(all)
}

/// The name of the mode of a rule.
fn mode_name(rule: &LexerRule) -> &str
    ensures { result.now ≡ mode_name rule.now }
{
    match &rule.mode {
        Some(name) => name.as_str(),
        None => "DEFAULT_MODE",
    }
}

/// The names of modes, and the place of each.
#[derive(Drop)]
struct Modes<'a> {
    names: &'a [Text],
    places: Places<'a>,
    ghost named: { ArePlaces names.now places },
}

/// Adds the starts of a rule to those of its mode.
fn add_to_mode(
    alloc: Global,
    all: &mut Vec<Sequence<Start>>,
    modes: &Modes<'_>,
    rule: &LexerRule,
    starts: Vec<Start>,
) -> Result<(), AllocError>
    ensures { OnOk result (all.new.items ≡ with_rule modes.now.names.now rule.now starts.items all.old.items) }
{
    match modes.places.place_of(mode_name(rule)) {
        Some(mode) => add_starts(alloc, all, mode, starts),
        None => Ok(()),
    }
}

/// Adds the starts of the rules to those of their modes; the first of the rules has this number.
fn add_by_modes(
    alloc: Global,
    all: &mut Vec<Sequence<Start>>,
    modes: &Modes<'_>,
    states: &[State<Reads>],
    number: u32,
    rules: &[LexerRule],
) -> Result<(), AllocError>
    requires can { AllCanStart states.now number rules.now }
    requires within { start_of (number + length rules.now) ≤ length states.now }
    requires few { length states.now ≤ MOST_STATES }
    ensures { OnOk result (all.new.items ≡ with_rules states.now modes.now.names.now number rules.now all.old.items) }
{
    let mut next = number;
    for rule in rules {
        let mut starts = Vec::new(alloc);
        add_matched(&mut starts, states, next, rule)?;
        add_to_mode(alloc, all, modes, rule, starts)?;
        next += 1;
    }
    Ok(())
}

/// The starts of each mode of these names, where the first `literals` rules are those of literals, which are in all modes.
pub fn starts_of_modes(
    alloc: Global,
    states: &[State<Reads>],
    rules: &[LexerRule],
    literals: usize,
    modes: &[Text],
) -> Result<Vec<Sequence<Start>>, AllocError>
    requires can { AllCanStart states.now 0 rules.now }
    requires within { start_of (length rules.now) ≤ length states.now }
    requires few { length states.now ≤ MOST_STATES }
    requires literals { literals ≤ length rules.now }
    ensures { IfOk result (λ all. all.items ≡ mode_starts states.now (take literals rules.now) (drop literals rules.now) modes.now) }
{
    let (front_rules, others) = rules.split_at(literals);
    let mut front = Vec::new(alloc);
    add_rules(&mut front, states, 0, front_rules)?;
    let mut all = starts_in_each(alloc, front.as_slice(), modes.len())?;
    let places = places_of(alloc, modes)?;
    let modes = Modes {
        names: modes,
        places,
    };
    add_by_modes(alloc, &mut all, &modes, states, literals as u32, others)?;
    Ok(all)
}
