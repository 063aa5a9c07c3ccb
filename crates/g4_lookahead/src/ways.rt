// Whether a rule can end at once from a state.
ghost use Rattle.std.specs.Prelude.{◌≡◌, ◌↔◌, IsTrue};
ghost use Rattle.g4_net.specs.Network.{state_at};
ghost use Rattle.g4_lookahead.specs.Ways.{EndsAtOnce, EndsWithin, way_by};
ghost use Rattle.g4_lookahead.specs.declared.ways.TheConstants.{LONGEST_WAY};

use g4_net::{ParserNetwork, State};

/// How many states of a way are looked at.
pub const LONGEST_WAY: u32 = 64;

/// Where a state leads that reads nothing and opens no rule.
#[derive(Clone, Copy)]
pub(crate) enum Way {
    /// It is the end of a rule.
    Ended,
    /// To this state.
    To(u32),
    /// Nowhere.
    Stuck,
}

/// Where the state leads: of a decision, where its last alternative begins.
fn way_from(net: &ParserNetwork, number: u32) -> Way
    ensures { result ≡ way_by (state_at net.now number) }
{
    match net.states.as_slice().get(number as usize) {
        Some(State::End(_)) => Way::Ended,
        Some(State::Empty(to)) => Way::To(*to),
        Some(State::Action(to)) => Way::To(*to),
        Some(State::Level(_, to)) => Way::To(*to),
        Some(State::Predicate(_, to)) => Way::To(*to),
        Some(State::Decision(targets)) => match targets.as_slice().last() {
            Some(to) => Way::To(*to),
            None => Way::Stuck,
        },
        Some(State::Edge(..)) => Way::Stuck,
        Some(State::Call { .. }) => Way::Stuck,
        None => Way::Stuck,
    }
}

/// Whether a few edges that read nothing lead from the state to the end of a rule. A decision is left by its last alternative.
/// It says no of some states from which a rule can end at once: where the way is another, or longer.
pub fn ends_at_once(net: &ParserNetwork, state: u32) -> bool
    ensures ends { IsTrue result → EndsAtOnce net.now state }
    ensures exact { IsTrue result ↔ EndsWithin net.now LONGEST_WAY state }
{
    let mut at = state;
    for _ in 0..LONGEST_WAY {
        match way_from(net, at) {
            Way::Ended => return true,
            Way::To(next) => at = next,
            Way::Stuck => return false,
        }
    }
    false
}
