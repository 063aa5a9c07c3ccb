// Whether the network of lexer rules is as small as a network must be.
ghost use Rattle.std.specs.Prelude.{◌≤◌, ◌↔◌, IsTrue};
ghost use Rattle.g4_net.specs.declared.network.TheConstants.{MOST_STATES};
ghost use Rattle.g4_lexer_rules.specs.NetworkRules.{lexer_states};

use g4_net::MOST_STATES;
use g4_source::LexerRule;
use g4_states::past_rules;

/// Whether the rules make no more states than a network may have.
pub fn fits(rules: &[LexerRule]) -> bool
    ensures { IsTrue result ↔ lexer_states rules.now ≤ MOST_STATES }
{
    if rules.len() > MOST_STATES / 2 {
        return false;
    }
    past_rules(MOST_STATES - 2 * rules.len(), rules).is_some()
}
