// The parser's automaton, for the store.
use crate::decision_net::DecisionNet;
use crate::row::Row;
use g4_store::automaton::Automaton;

/// The automaton of SLL over a network: its rows are sets of configurations.
pub struct Parsing;

impl Automaton<DecisionNet, Row> for Parsing {
    ghost use Rattle.g4_learned.specs.Automata.{StartsAt, LeadsTo};
    ghost use Rattle.g4_learned.specs.Unique.{one_start, one_led};

    ghost starts = { StartsAt };

    ghost leads = { LeadsTo };

    ghost one_start = { one_start };

    ghost one_led = { one_led };
}
