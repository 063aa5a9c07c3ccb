// The lexer of a grammar: its network, and what is known of its rules.
ghost use Rattle.std.specs.Prelude.{◌≡◌, ◌≤◌, All, IfOk};
ghost use Rattle.g4_tokens.specs.declared.symbol.TheConstants.{MOST_TYPES};
ghost use Rattle.g4_lexer.specs.Lexers.{GivesTokenType, HasTokenTypes};
ghost use Rattle.g4_lexer_rules.specs.Lexers.{GivesLexer, lexer_with};
ghost use Rattle.g4_ordered.specs.Network.{IsLexable};

use crate::building::build_net;
use crate::checked_lexer::CheckedLexer;
use crate::lex_net::{LexFault, LexNet};
use crate::lexer_rules::LexerRules;
use crate::making::lexer_commands;
use crate::tables::CommandTables;
use g4_base::Sequence;
use g4_lexer::Lexer;
use std::alloc::{AllocError, Global};

/// The lexer by a network, the token types of its rules, and what their commands name.
fn lexer_with(
    alloc: Global,
    made: LexNet,
    types: Sequence<u32>,
    tables: &CommandTables,
) -> Result<Lexer, AllocError>
    ensures made { IfOk result (λ lexer. lexer ≡ lexer_with made types tables.now) }
    ensures types { All (λ name. name.symbol ≤ MOST_TYPES) tables.now.types
        → IfOk result (λ lexer. All (All (All GivesTokenType)) lexer.commands) }
{
    let commands = lexer_commands(alloc, tables, made.commands.as_slice())?;
    Ok(Lexer {
        net: made.net,
        modes: made.modes,
        types,
        commands,
    })
}

/// The lexer of these rules.
///
/// # Errors
/// Its network would have too many states, or no memory.
pub fn build_lexer(alloc: Global, checked: CheckedLexer) -> Result<Lexer, LexFault>
    ensures lexer { GivesLexer checked.0 checked.1 result }
    ensures lexable { IfOk result (λ made. IsLexable made.net) }
    ensures types { IfOk result HasTokenTypes }
{
    let (rules, tables) = checked.into_parts();
    let LexerRules {
        literals,
        rules,
        types,
    } = rules;
    let modes = tables.modes.as_slice();
    let made = build_net(alloc, literals.into_vec(), rules.into_vec(), modes)?;
    let lexer = lexer_with(alloc, made, types, &tables)?;
    Ok(lexer)
}
