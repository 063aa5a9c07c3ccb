// The tokens after `~` in a parser rule.
ghost use Rattle.std.specs.Prelude.{◌≡◌, ◌++◌, OnOk};
ghost use Rattle.g4_cursor.specs.Progress.{Moves, Gives};
ghost use Rattle.g4_productions.specs.ParserElements.{references_of, bracket_references};

use g4_base::Sequence;
use g4_cursor::{Cursor, literal, optional_element_options};
use g4_grammar_tokens::Kind;
use g4_source::TokenReference;
use std::alloc::AllocError;

/// Adds the references of a set of tokens.
#[cycle(sets)]
fn add_set(cursor: &mut Cursor<'_>, references: &mut Vec<TokenReference>) -> Result<(), AllocError>
    ensures { OnOk result (Moves (λ tree. references.new.items ≡ references.old.items ++ references_of tree) cursor.old cursor.new) }
{
    if cursor.is_at(Kind::Upper) {
        let name = cursor.text(Kind::Upper)?;
        optional_element_options(cursor)?;
        references.push(TokenReference::Token(name))?;
        return Ok(());
    }
    if cursor.is_at(Kind::Literal) {
        let taken = cursor.take(Kind::Literal);
        let literal = literal(cursor.alloc(), taken.text)?;
        references.push(TokenReference::Literal(literal))?;
        return Ok(());
    }
    add_brackets(cursor, references)?;
    Ok(())
}

/// Adds the references of sets in brackets with bars between.
#[cycle(sets)]
fn add_brackets(
    cursor: &mut Cursor<'_>,
    references: &mut Vec<TokenReference>,
) -> Result<(), AllocError>
    ensures { OnOk result (Moves (λ tree. references.new.items ≡ references.old.items ++ bracket_references tree) cursor.old cursor.new) }
{
    if !cursor.open() {
        return Ok(());
    }
    add_set(cursor, references)?;
    while cursor.is_at(Kind::Bar) {
        cursor.take(Kind::Bar);
        add_set(cursor, references)?;
    }
    cursor.take(Kind::RightParenthesis);
    Ok(())
}

/// The references of a set of tokens.
pub(crate) fn excluded_tokens(
    cursor: &mut Cursor<'_>,
) -> Result<Sequence<TokenReference>, AllocError>
    ensures { Gives references_of cursor.old cursor.new result }
{
    let mut references = Vec::new(cursor.alloc());
    add_set(cursor, &mut references)?;
    Ok(Sequence::new(references))
}
