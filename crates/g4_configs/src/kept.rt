// The configurations that are kept between two symbols.
ghost use Rattle.std.specs.Prelude.{◌≡◌, ◌↔◌, filter};
ghost use Rattle.g4_configs.specs.Configs.{Holds, KeepsStacks};
ghost use Rattle.g4_configs.specs.Kept.{keeps_by, keeps_pair};
ghost use Rattle.g4_net.specs.Configurations.{Config};
ghost use Rattle.g4_net.specs.Lookahead.{IsKept};
ghost use Rattle.g4_net.specs.Network.{state_at};

use crate::configs::Configs;
use g4_net::{ParserNetwork, State};
use std::collections::HashMap;

/// Whether configurations of the state are kept: it has an edge that takes symbols, or is the end of the added rule.
fn is_kept(net: &ParserNetwork, state: u32) -> bool
    ensures { result ≡ keeps_by (state_at net.now state) }
{
    match net.states.as_slice().get(state as usize) {
        Some(State::Edge(..)) => true,
        Some(State::End(rule)) => *rule == 0,
        _ => false,
    }
}

/// Leaves out the states that are not kept.
fn keep_states(net: &ParserNetwork, nodes: &mut HashMap<(u32, u32), u32>)
    ensures { nodes.new.entries ≡ filter (λ e. keeps_pair net.now e.0) nodes.old.entries }
{
    nodes.retain(|(state, _), _| is_kept(net, *state));
}

impl Configs {
    /// Leaves out the configurations that are not kept. Those at an edge that takes symbols are, and those at the end of the
    /// added rule.
    pub fn keep(&mut self, net: &ParserNetwork)
        ensures keeps { KeepsStacks self.old self.new }
        ensures members { (c : Config) → Holds self.new c ↔ (Holds self.old c × IsKept net.now c) }
    {
        keep_states(net, &mut self.nodes);
    }
}
