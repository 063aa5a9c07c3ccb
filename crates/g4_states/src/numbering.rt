// The numbers of alternatives that are written at the states of rules, once all of these are made.
ghost use Rattle.std.specs.Prelude.{◌≡◌, ◌≤◌, ◌<◌, ◌+◌, ◌++◌, ◌^◌, ℕ, OnOk, IfOk, Some, length, map, replicate, slice_index};
ghost use Rattle.g4_layout.specs.Numbers.{number_by};
ghost use Rattle.g4_net.specs.Network.{start_of, end_of};
ghost use Rattle.g4_states.specs.Drafts.{Among};
ghost use Rattle.g4_states.specs.Numberings.{CanAllBeNumbered, CanBeNumbered, RuleIsNumbered, RulesAreNumbered, marked};

use g4_grammar::Numbering;
use g4_net::State;
use std::alloc::{AllocError, Global};

/// `count` zeros.
///
/// # Errors
/// No memory.
pub fn zeros(alloc: Global, count: usize) -> Result<Vec<u32>, AllocError>
    ensures { IfOk result (λ numbers. numbers.items ≡ replicate count 0) }
{
    let mut numbers = Vec::new(alloc);
    for _ in 0..count {
        numbers.push(0)?;
    }
    Ok(numbers)
}

/// The number at a state of a rule of `count` alternatives, where the rule does not start with one of them.
fn number_at<L>(count: u32, state: &State<L>) -> u32
    requires { count + 1 < 2 ^ 32 }
    ensures { result ≡ number_by count (Some state.now) }
{
    match state {
        State::Level(level, _) => (count + 1).saturating_sub(*level),
        _ => 0,
    }
}

/// Adds the numbers at these states.
fn add_numbers<L>(written: &mut Vec<u32>, states: &[State<L>], count: u32) -> Result<(), AllocError>
    requires { count + 1 < 2 ^ 32 }
    ensures { OnOk result (written.new.items ≡ written.old.items ++ map (λ state. number_by count (Some state)) states.now) }
{
    for state in states {
        written.push(number_at(count, state))?;
    }
    Ok(())
}

/// Writes these numbers at these places.
fn mark(written: &mut Vec<u32>, places: &[u32], numbers: &[u32])
    requires within { (p : ℕ) → Among places.now p → p < length written.old.items }
    requires many { length places.now ≡ length numbers.now }
    ensures { written.new.items ≡ marked places.now numbers.now written.old.items }
{
    for (k, place) in places.iter().enumerate() {
        written[*place as usize] = numbers[k];
    }
}

/// Numbers the states of a rule up to this one, those before them being numbered.
///
/// # Errors
/// No memory.
pub fn number_rule<L>(
    written: &mut Vec<u32>,
    states: &[State<L>],
    rule: u32,
    end: u32,
    numbering: &Numbering,
) -> Result<(), AllocError>
    requires fit { CanBeNumbered states.now rule numbering.now (length written.old.items) end }
    requires heads { end_of rule < length written.old.items }
    requires blank { (p : ℕ) → start_of rule ≤ p → p ≤ end_of rule → slice_index written.old.items p ≡ 0 }
    ensures { OnOk result (RuleIsNumbered states.now written.old.items written.new.items rule numbering.now end) }
{
    let first = written.len();
    add_numbers(written, &states[first..end as usize], numbering.count)?;
    let start = 2 * rule as usize;
    let starts = numbering.starts.as_slice();
    if starts.len() == 1 {
        written[start] = starts[0];
    } else if let State::Decision(firsts) = &states[start] {
        mark(written, firsts.as_slice(), starts);
    }
    Ok(())
}

/// Numbers the states of the rules with these numberings, the first of which has this number, what is before them being written: the
/// states of each rule but for its start and end are those up to its end among these.
///
/// # Errors
/// No memory.
pub fn number_rules<L>(
    written: &mut Vec<u32>,
    states: &[State<L>],
    first: u32,
    ends: &[u32],
    numberings: &[Numbering],
) -> Result<(), AllocError>
    requires fit { CanAllBeNumbered states.now first (length written.old.items) ends.now numberings.now }
    requires heads { start_of (first + length numberings.now) ≤ length written.old.items }
    requires blank { (p : ℕ) → start_of first ≤ p → p < start_of (first + length numberings.now) → slice_index written.old.items p ≡ 0 }
    requires few { length states.now < 2 ^ 32 }
    ensures { OnOk result (RulesAreNumbered states.now written.old.items written.new.items first ends.now numberings.now) }
{
    for (k, numbering) in numberings.iter().enumerate() {
        number_rule(written, states, first + k as u32, ends[k], numbering)?;
    }
    Ok(())
}
