// What comes before the rules of a grammar: prequels.
ghost use Rattle.std.specs.Prelude.{◌≡◌, Some};
ghost use Rattle.g4_grammar_tokens.specs.declared.token.Kind.TheVariants as kinds;
ghost use Rattle.g4_syntax.specs.Notation.{optional, sign, ◌▸◌, name as a_name};
ghost use Rattle.g4_syntax.specs.Productions.{named_action, prequel as a_prequel};
ghost use Rattle.g4_cursor.specs.Prequels.{imported_of, import_of, names_from as names_from_tree, names_of, prequel_of, prequels_of};
ghost use Rattle.g4_cursor.specs.Progress.{is_next, Passes, Gives};

use crate::cursor::Cursor;
use crate::options::options;
use g4_base::{Sequence, Text};
use g4_grammar_tokens::Kind;
use g4_source::Prequel;
use std::alloc::AllocError;

/// The name of an imported grammar. The name under which it is imported does not count.
fn imported(cursor: &mut Cursor<'_>) -> Result<Text, AllocError>
    ensures { Gives imported_of cursor.old cursor.new result }
{
    let name = cursor.name_text()?;
    if !cursor.is_at(Kind::Equals) {
        return Ok(name);
    }
    cursor.take(Kind::Equals);
    let other = cursor.name_text()?;
    Ok(other)
}

/// The imported grammars of `import`.
fn import(cursor: &mut Cursor<'_>) -> Result<Prequel, AllocError>
    ensures { Gives import_of cursor.old cursor.new result }
{
    let place = cursor.take_word("import").place;
    let first = imported(cursor)?;
    let mut names = vec![in cursor.alloc(); first]?;
    while cursor.is_at(Kind::Comma) {
        cursor.take(Kind::Comma);
        let name = imported(cursor)?;
        names.push(name)?;
    }
    cursor.take(Kind::Semicolon);
    Ok(Prequel::Import(place, Sequence::new(names)))
}

/// Names with commas between them and perhaps one at the end.
fn names_from(cursor: &mut Cursor<'_>) -> Result<Sequence<Text>, AllocError>
    ensures { Gives names_from_tree cursor.old cursor.new result }
{
    let mut names = Vec::new(cursor.alloc());
    while cursor.is_at_name() {
        let name = cursor.name_text()?;
        names.push(name)?;
        if !cursor.is_at(Kind::Comma) {
            return Ok(Sequence::new(names));
        }
        cursor.take(Kind::Comma);
    }
    Ok(Sequence::new(names))
}

/// Names in braces.
fn names(cursor: &mut Cursor<'_>) -> Result<Sequence<Text>, AllocError>
    ensures { Gives names_of cursor.old cursor.new result }
{
    cursor.take(Kind::LeftBrace);
    let names = names_from(cursor)?;
    cursor.take(Kind::RightBrace);
    Ok(names)
}

/// Passes the other name of a named action, if there is one.
fn pass_other_name(cursor: &mut Cursor<'_>)
    ensures { Passes (optional (sign kinds.DoubleColon ▸ a_name)) cursor.old cursor.new }
{
    if cursor.is_at(Kind::DoubleColon) {
        cursor.take(Kind::DoubleColon);
        cursor.take_name();
    }
}

/// Passes a named action.
fn pass_named_action(cursor: &mut Cursor<'_>)
    ensures { Passes named_action cursor.old cursor.new }
{
    cursor.take(Kind::At);
    cursor.take_name();
    pass_other_name(cursor);
    cursor.take(Kind::Action);
}

/// A prequel, if it is kept.
fn prequel(cursor: &mut Cursor<'_>) -> Result<Option<Prequel>, AllocError>
    ensures { Gives prequel_of cursor.old cursor.new result }
{
    if cursor.is_at_word("options") {
        let settings = options(cursor)?;
        return Ok(Some(Prequel::Options(settings)));
    }
    if cursor.is_at_word("import") {
        let import = import(cursor)?;
        return Ok(Some(import));
    }
    if cursor.is_at_word("tokens") {
        let place = cursor.take_word("tokens").place;
        let names = names(cursor)?;
        return Ok(Some(Prequel::Tokens(place, names)));
    }
    if cursor.is_at_word("channels") {
        let place = cursor.take_word("channels").place;
        let names = names(cursor)?;
        return Ok(Some(Prequel::Channels(place, names)));
    }
    pass_named_action(cursor);
    Ok(None)
}

/// Whether a prequel is next.
fn is_at_prequel(cursor: &Cursor<'_>) -> bool
    ensures { result ≡ is_next a_prequel cursor.now }
{
    cursor.is_at_word("options")
        | cursor.is_at_word("import")
        | cursor.is_at_word("tokens")
        | cursor.is_at_word("channels")
        | cursor.is_at(Kind::At)
}

/// All prequels that are kept.
pub fn prequels(cursor: &mut Cursor<'_>) -> Result<Sequence<Prequel>, AllocError>
    ensures { Gives prequels_of cursor.old cursor.new result }
{
    let mut prequels = Vec::new(cursor.alloc());
    while is_at_prequel(cursor) {
        if let Some(prequel) = prequel(cursor)? {
            prequels.push(prequel)?;
        }
    }
    Ok(Sequence::new(prequels))
}
