// Tables of token types that grow.
ghost use Rattle.std.specs.Prelude.{◌≡◌, ◌≤◌, [], ◌∷◌, IfOk, IfSome, map, option_map};
ghost use Rattle.std.specs.Option.{is_some};
ghost use Rattle.g4_token_file.specs.Keys.{number_of};
ghost use Rattle.g4_token_file.specs.declared.entry.TokenKey.TheVariants.{Name, Literal as Lit};
ghost use Rattle.g4_tokens.specs.declared.symbol.TheConstants.{MOST_TYPES};
ghost use Rattle.g4_vocab.specs.Types.{entry_of, key_of, literal_number, type_of};
ghost use Rattle.g4_vocab.specs.Tables.{Adds, GivesNumber, reference_of, wanted_of};

use crate::fault::NumberFault;
use crate::references::Reference;
use crate::wanted::WantedToken;
use g4_base::{Sequence, Text};
use g4_source::Literal;
use g4_token_file::{TokenEntry, TokenKey, TokenTable};
use g4_tokens::MOST_TYPES;
use std::alloc::{AllocError, Global};

/// The type of a name, 0 where the table does not have it.
pub fn type_of_name(types: &TokenTable, name: &str) -> u32
    ensures { result ≡ type_of types.now (Name name.now) }
{
    types.number_of_name(name).unwrap_or(0)
}

/// The type of a literal for these characters, 0 where the table does not have it.
pub fn type_of_literal(types: &TokenTable, characters: &[char]) -> u32
    ensures { result ≡ type_of types.now (Lit characters.now) }
{
    types.number_of_literal(characters).unwrap_or(0)
}

/// Whether the table has the token.
fn has_token(types: &TokenTable, token: Reference<'_>) -> bool
    ensures { result ≡ is_some (number_of types.now (key_of (reference_of token.entry))) }
{
    match token {
        Reference::Token(name) => types.number_of_name(name).is_some(),
        Reference::Literal(literal) => types
            .number_of_literal(literal.characters.as_slice())
            .is_some(),
    }
}

/// The number of the literal, if there is one and the table has it.
fn literal_number(types: &TokenTable, literal: Option<&Literal>) -> Option<u32>
    ensures value { result ≡ literal_number types.now (option_map (λ l. l.now.characters) literal.entry) }
    ensures within { IfSome result (λ number. number ≤ MOST_TYPES) }
{
    match literal {
        Some(literal) => types.number_of_literal(literal.characters.as_slice()),
        None => None,
    }
}

/// The type that a new token gets: that of the literal which names it too, else the next one after the greatest.
fn new_number(types: &TokenTable, literal: Option<&Literal>) -> Result<u32, NumberFault>
    ensures { GivesNumber types.now (option_map (λ l. l.now.characters) literal.entry) result }
{
    match literal_number(types, literal) {
        Some(number) => Ok(number),
        None => {
            let greatest = types.greatest();
            if greatest >= MOST_TYPES {
                return Err(NumberFault::Types);
            }
            Ok(greatest + 1)
        }
    }
}

/// The entry of a token of this type.
fn entry_of(alloc: Global, token: Reference<'_>, number: u32) -> Result<TokenEntry, AllocError>
    ensures { IfOk result (λ entry. entry ≡ entry_of (reference_of token.entry) number) }
{
    let (key, written) = match token {
        Reference::Token(name) => (TokenKey::Name(Text::copy_of(alloc, name)?), name),
        Reference::Literal(literal) => {
            let characters = literal.characters.as_slice().to_vec(alloc)?;
            (
                TokenKey::Literal(Sequence::new(characters)),
                literal.written.as_str(),
            )
        }
    };
    Ok(TokenEntry {
        key,
        written: Text::copy_of(alloc, written)?,
        number,
    })
}

/// The table with the token, which keeps its number where it is there.
fn with_token(
    alloc: Global,
    types: TokenTable,
    wanted: WantedToken<'_>,
) -> Result<TokenTable, NumberFault>
    ensures { Adds types (wanted_of wanted.entry ∷ []) result }
{
    if has_token(&types, wanted.token) {
        return Ok(types);
    }
    let number = new_number(&types, wanted.literal)?;
    let entry = entry_of(alloc, wanted.token, number)?;
    let longer = types.with_entry(alloc, entry)?;
    Ok(longer)
}

/// The table with these tokens, one after another.
pub fn with_tokens(
    alloc: Global,
    table: TokenTable,
    wanted: &[WantedToken<'_>],
) -> Result<TokenTable, NumberFault>
    ensures { Adds table (map wanted_of wanted.now) result }
{
    let mut types = table;
    for token in wanted {
        types = with_token(alloc, types, *token)?;
    }
    Ok(types)
}
