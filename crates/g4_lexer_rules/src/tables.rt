// What the arguments of commands name.
ghost use Rattle.std.specs.Prelude.{◌≡◌, IfOk};
ghost use Rattle.g4_lexer_rules.specs.Tables.{tables_of};

use crate::channels::{channels_of, modes_of};
use g4_base::{Sequence, Text};
use g4_grammar::TokenName;
use g4_source::Source;
use std::alloc::{AllocError, Global};

/// What the arguments of commands name. The number of a channel or a mode is the place of its name, counted from 0.
#[derive(Drop)]
pub struct CommandTables {
    /// The names of token types. Of two with one name, the first has it.
    pub types: Sequence<TokenName>,
    /// The names of the channels, each once: the two that every grammar has, and then those that it declares.
    pub channels: Sequence<Text>,
    /// The names of the modes, each once: the default mode, and then those of the grammar.
    pub modes: Sequence<Text>,
}

/// What the commands of a grammar can name, whose token types have these names.
///
/// # Errors
/// No memory.
pub(crate) fn tables_of(
    alloc: Global,
    source: &Source,
    types: Sequence<TokenName>,
) -> Result<CommandTables, AllocError>
    ensures { IfOk result (λ tables. tables ≡ tables_of source.now types) }
{
    let channels = channels_of(alloc, source)?;
    let modes = modes_of(alloc, source)?;
    Ok(CommandTables {
        types,
        channels,
        modes,
    })
}
