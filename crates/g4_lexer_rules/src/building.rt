// The network of a lexer from its rules.
ghost use Rattle.std.specs.Prelude.{◌≡◌, IfOk};
ghost use Rattle.g4_source.specs.Blocks.{LexerRulesAreFull};
ghost use Rattle.g4_lexer_rules.specs.LexNets.{GivesLexNet};
ghost use Rattle.g4_lexer_rules.specs.NetworkRules.{all_rules};

use crate::commands::commands_of;
use crate::drawing::{draw, numberings_of};
use crate::lex_net::{LexFault, LexNet};
use crate::lowering::lower;
use crate::sizes::fits;
use crate::starting::starts_of_modes;
use g4_base::{Sequence, Text};
use g4_source::LexerRule;
use std::alloc::{AllocError, Global};

/// The rules of literals and then the others.
fn join(literals: Vec<LexerRule>, rules: Vec<LexerRule>) -> Result<Vec<LexerRule>, AllocError>
    ensures { IfOk result (λ all. all.items ≡ all_rules literals.items rules.items) }
{
    let mut all = literals;
    let mut others = rules;
    all.append(&mut others)?;
    Ok(all)
}

/// The network of a lexer: of the rules of the literals that have tokens of their own, by type, and of its lexer rules in order, which
/// are in modes of these names.
///
/// # Errors
/// Too many states, or no memory.
pub(crate) fn build_net(
    alloc: Global,
    literals: Vec<LexerRule>,
    rules: Vec<LexerRule>,
    modes: &[Text],
) -> Result<LexNet, LexFault>
    requires literals { LexerRulesAreFull literals.items }
    requires rules { LexerRulesAreFull rules.items }
    ensures { GivesLexNet literals.items rules.items modes.now result }
{
    let count = literals.len();
    let rules = join(literals, rules)?;
    if !fits(rules.as_slice()) {
        return Err(LexFault::States);
    }
    let lowered = lower(alloc, rules.as_slice())?;
    let numberings = numberings_of(alloc, rules.as_slice())?;
    let net = draw(alloc, lowered.as_slice(), numberings.as_slice())?;
    let modes = starts_of_modes(alloc, net.states.as_slice(), rules.as_slice(), count, modes)?;
    let commands = commands_of(alloc, rules)?;
    Ok(LexNet {
        net,
        modes: Sequence::new(modes),
        commands: Sequence::new(commands),
    })
}
