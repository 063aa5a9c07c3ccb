// The alternatives of a decision that a condition allows.
ghost use Rattle.std.specs.Prelude.{◌≡◌, ◌↔◌, ℕ, All, Contains, IfOk, IsTrue, Some, length};
ghost use Rattle.g4_net.specs.Allowed.{Allows};
ghost use Rattle.g4_net.specs.Loops.{HasLoops};
ghost use Rattle.g4_net.specs.Network.{state_at};
ghost use Rattle.g4_guards.specs.Levels.{AreAllowedAt, HasDigit, LetsBy, MeetsBy, after_digit};
ghost use Rattle.g4_guards.specs.Meeting.{MeetsAmong};

use crate::tests::{firsts, has_predicate, is_test_at};
use g4_base::Sequence;
use g4_net::{Allowed, ParserNetwork, State};
use g4_tokens::Symbols;
use std::alloc::{AllocError, Global};

/// Whether the state may be passed in a rule that was called at this level.
fn meets(state: &State<Symbols>, level: u32) -> bool
    ensures { IsTrue result ↔ MeetsBy level (Some state.now) }
{
    match state {
        State::Level(most, _) => level <= *most,
        _ => true,
    }
}

/// Whether the state of this number may be passed there.
fn meets_at(net: &ParserNetwork, number: u32, level: u32) -> bool
    ensures { IsTrue result ↔ MeetsBy level (state_at net.now number) }
{
    match net.states.as_slice().get(number as usize) {
        Some(state) => meets(state, level),
        None => true,
    }
}

/// Whether each of these states may be passed there.
fn all_meet(net: &ParserNetwork, targets: &[u32], level: u32) -> bool
    ensures { IsTrue result → All (λ t. MeetsBy level (state_at net.now t)) targets.now }
{
    targets.iter().all(|target| meets_at(net, *target, level))
}

/// The alternatives with these first states that may be taken there. There is no memory for more of them than a `u32` counts.
fn meeting(
    alloc: Global,
    net: &ParserNetwork,
    targets: &[u32],
    level: u32,
) -> Result<Vec<u32>, AllocError>
    ensures { IfOk result (λ found. (i : ℕ) → Contains found.items i ↔ MeetsAmong net.now level targets.now (length targets.now) i) }
{
    let mut found = Vec::new(alloc);
    for (before, target) in targets.iter().enumerate() {
        let Ok(alternative) = u32::try_from(before + 1) else {
            return Err(AllocError);
        };
        if !meets_at(net, *target, level) {
            continue;
        }
        found.push(alternative)?;
    }
    Ok(found)
}

/// Whether the digit of a first state does not forbid it: the last one of this number, if the state is a test.
fn lets(net: &ParserNetwork, number: u32, digits: u32) -> bool
    ensures { IsTrue result ↔ LetsBy digits (state_at net.now number) }
{
    !is_test_at(net, number) || digits % 2 == 1
}

/// The number without the digit of a first state, if the state is a test.
fn after(net: &ParserNetwork, number: u32, digits: u32) -> u32
    ensures { result ≡ after_digit (state_at net.now number) digits }
{
    if is_test_at(net, number) {
        digits / 2
    } else {
        digits
    }
}

/// The alternatives with these first states that the digits of the condition allow. There is no memory for more of them than a `u32`
/// counts.
fn with_digits(
    alloc: Global,
    net: &ParserNetwork,
    targets: &[u32],
    condition: u32,
) -> Result<Vec<u32>, AllocError>
    ensures { IfOk result (λ found. (i : ℕ) → Contains found.items i ↔ HasDigit net.now targets.now condition i) }
{
    let mut found = Vec::new(alloc);
    let mut digits = condition;
    for (before, target) in targets.iter().enumerate() {
        let Ok(alternative) = u32::try_from(before + 1) else {
            return Err(AllocError);
        };
        let may = lets(net, *target, digits);
        digits = after(net, *target, digits);
        if !may {
            continue;
        }
        found.push(alternative)?;
    }
    Ok(found)
}

/// The alternatives of a decision that may be taken under a condition.
///
/// # Errors
/// No memory.
pub fn allowed_at(
    alloc: Global,
    net: &ParserNetwork,
    decision: u32,
    condition: u32,
) -> Result<Allowed, AllocError>
    requires { HasLoops net.now }
    ensures { IfOk result (λ allowed. AreAllowedAt net.now decision condition (Allows allowed)) }
{
    let targets = firsts(net, decision);
    if has_predicate(net, targets) {
        let found = with_digits(alloc, net, targets, condition)?;
        return Ok(Allowed::Listed(Sequence::new(found)));
    }
    if all_meet(net, targets, condition) {
        return Ok(Allowed::Every);
    }
    let found = meeting(alloc, net, targets, condition)?;
    Ok(Allowed::Listed(Sequence::new(found)))
}
