// What the alternatives of a decision begin with.
ghost use Rattle.std.specs.Prelude.{◌≡◌, Some};
ghost use Rattle.std.specs.List.{list_any};
ghost use Rattle.g4_guards.specs.Meeting.{begins_by, firsts_by, is_predicate};
ghost use Rattle.g4_guards.specs.Tests.{HasTests, is_test as test_by, tests_among};
ghost use Rattle.g4_net.specs.Loops.{HasLoops};
ghost use Rattle.g4_net.specs.Network.{state_at};

use g4_net::{ParserNetwork, State};
use g4_tokens::Symbols;

/// The most alternatives of a decision that may begin with tests, where one begins with a predicate, for it to have guards.
pub const MOST_TESTED: usize = 6;

/// What the alternatives of a decision begin with.
#[derive(Clone, Copy, Debug, PartialEq, Eq)]
pub enum Tests {
    /// No tests but levels.
    Levels,
    /// Predicates are among their tests, and no more than six of the alternatives begin with a predicate or a level.
    Few,
    /// Predicates are among their tests, and more than six of the alternatives begin with a predicate or a level.
    Many,
}

/// Where the alternatives of a decision begin.
pub(crate) fn firsts(net: &ParserNetwork, decision: u32) -> &[u32]
    ensures { result.now ≡ firsts_by (state_at net.now decision) }
{
    match net.states.as_slice().get(decision as usize) {
        Some(State::Decision(targets)) => targets.as_slice(),
        _ => &[],
    }
}

/// Whether the state is a predicate or a level.
fn is_test(state: &State<Symbols>) -> bool
    ensures { result ≡ test_by (Some state.now) }
{
    match state {
        State::Predicate(..) | State::Level(..) => true,
        _ => false,
    }
}

/// Whether the state of this number is a predicate or a level.
pub fn is_test_at(net: &ParserNetwork, number: u32) -> bool
    ensures { result ≡ test_by (state_at net.now number) }
{
    match net.states.as_slice().get(number as usize) {
        Some(state) => is_test(state),
        None => false,
    }
}

/// Whether the state of this number is a predicate.
fn is_predicate_at(net: &ParserNetwork, number: u32) -> bool
    ensures { result ≡ is_predicate (state_at net.now number) }
{
    match net.states.as_slice().get(number as usize) {
        Some(State::Predicate(..)) => true,
        _ => false,
    }
}

/// Whether the state of this number is a predicate, or a level before one.
fn begins_at(net: &ParserNetwork, number: u32) -> bool
    ensures { result ≡ begins_by net.now (state_at net.now number) }
{
    match net.states.as_slice().get(number as usize) {
        Some(State::Predicate(..)) => true,
        Some(State::Level(_, target)) => is_predicate_at(net, *target),
        _ => false,
    }
}

/// Whether one of these first states is a predicate, or a level before one.
pub(crate) fn has_predicate(net: &ParserNetwork, targets: &[u32]) -> bool
    ensures { result ≡ list_any (λ t. begins_by net.now (state_at net.now t)) targets.now }
{
    targets.iter().any(|target| begins_at(net, *target))
}

/// How many of these first states are predicates or levels.
pub fn count_tests(net: &ParserNetwork, targets: &[u32]) -> usize
    ensures { result ≡ tests_among net.now targets.now }
{
    targets
        .iter()
        .filter(|target| is_test_at(net, **target))
        .count()
}

/// What the alternatives of a decision begin with. A state that is no decision has none.
pub fn tests_of(net: &ParserNetwork, decision: u32) -> Tests
    requires { HasLoops net.now }
    ensures { HasTests net.now decision result }
{
    let targets = firsts(net, decision);
    if !has_predicate(net, targets) {
        return Tests::Levels;
    }
    if count_tests(net, targets) <= MOST_TESTED {
        Tests::Few
    } else {
        Tests::Many
    }
}
