// The literals that have tokens of their own, by their types.
ghost use Rattle.std.specs.Prelude.{◌≡◌, ◌<◌, ◌+◌, [], IfOk, OnOk, length, map};
ghost use Rattle.g4_token_file.specs.Keys.{greatest_number};
ghost use Rattle.g4_vocab.specs.Shown.{by_type, own_token};
ghost use Rattle.g4_vocab.specs.Tables.{HaveJoined, Joins};

use crate::types::type_of_literal;
use g4_base::{Sequence, Text};
use g4_grammar::TokenLiteral;
use g4_source::Literal;
use g4_token_file::TokenTable;
use std::alloc::{AllocError, Global};

/// Tokens that have one type.
type Group = Vec<TokenLiteral>;

/// The literal with its type.
fn own_token(
    alloc: Global,
    types: &TokenTable,
    literal: &Literal,
) -> Result<TokenLiteral, AllocError>
    ensures { IfOk result (λ token. token ≡ own_token types.now literal.now) }
{
    let characters = literal.characters.as_slice();
    let symbol = type_of_literal(types, characters);
    Ok(TokenLiteral {
        literal: Literal {
            characters: Sequence::new(characters.to_vec(alloc)?),
            written: Text::copy_of(alloc, literal.written.as_str())?,
        },
        symbol,
    })
}

/// As many empty groups.
fn empty_groups(alloc: Global, count: usize) -> Result<Vec<Group>, AllocError>
    ensures { IfOk result (HaveJoined count []) }
{
    let mut groups = Vec::new(alloc);
    'groups: for _ in 0..count {
        groups.push(Vec::new(alloc))?;
    }
    Ok(groups)
}

/// Adds a token to the group of its type.
fn join(groups: &mut Vec<Group>, token: TokenLiteral) -> Result<(), AllocError>
    requires { token.symbol < length groups.old.items }
    ensures { OnOk result (Joins groups.old.items token groups.new.items) }
{
    let group = token.symbol as usize;
    groups[group].push(token)?;
    Ok(())
}

/// The literals with their types, in groups by these.
fn grouped(
    alloc: Global,
    types: &TokenTable,
    literals: &[&Literal],
) -> Result<Vec<Group>, AllocError>
    ensures { IfOk result (HaveJoined (greatest_number types.now + 1) (map (own_token types.now) (map (λ l. l.now) literals.now))) }
{
    let mut groups = empty_groups(alloc, types.greatest() as usize + 1)?;
    for literal in literals {
        join(&mut groups, own_token(alloc, types, literal)?)?;
    }
    Ok(groups)
}

/// The literals with their types, least type first.
pub fn by_type(
    alloc: Global,
    types: &TokenTable,
    literals: &[&Literal],
) -> Result<Sequence<TokenLiteral>, AllocError>
    ensures { IfOk result (λ tokens. tokens
        ≡ by_type (greatest_number types.now) (map (own_token types.now) (map (λ l. l.now) literals.now))) }
{
    let groups = grouped(alloc, types, literals)?;
    let mut tokens = Vec::new(alloc);
    for mut group in groups {
        tokens.append(&mut group)?;
    }
    Ok(Sequence::new(tokens))
}
