// A vocabulary: token types by what names them.
ghost use Rattle.std.specs.Prelude.{◌≡◌, ◌≤◌};
ghost use Rattle.g4_token_file.specs.Keys.{greatest_number};
ghost use Rattle.g4_tokens.specs.declared.symbol.TheConstants.{MOST_TYPES};
ghost use Rattle.g4_vocab.specs.Types.{all_types, gaps_of};

use crate::wholes::Wholes;
use g4_source::Literal;
use g4_token_file::TokenTable;
use g4_tokens::Symbols;

/// The token types of a grammar by the names and literals in its rules.
#[derive(Drop)]
pub struct Vocabulary<'a> {
    pub(crate) wholes: Wholes<'a>,
    /// The literals that have tokens of their own, each where the parser rules have it first.
    pub(crate) own: Vec<&'a Literal>,
    pub(crate) types: TokenTable,
    /// The numbers up to the greatest type that are no types.
    pub(crate) gaps: Vec<u32>,
    /// The types.
    pub(crate) all: Symbols,
    pub(crate) ghost few: { greatest_number types ≤ MOST_TYPES },
    pub(crate) ghost gaps_are: { gaps.items ≡ gaps_of types },
    pub(crate) ghost all_are: { all ≡ all_types types },
}
