// Lexer rules and the sections of modes.
ghost use Rattle.std.specs.Prelude.{◌≡◌, codes};
ghost use Rattle.g4_syntax.specs.Notation.{optional, word};
ghost use Rattle.g4_syntax.specs.Productions.{lexer_rule as a_lexer_rule};
ghost use Rattle.g4_cursor.specs.Progress.{is_next, Gives, Moves};
ghost use Rattle.g4_cursor.specs.Texts.{is_present};
ghost use Rattle.g4_productions.specs.Rules.{argument_text_of, argument_of, command_of, commands_in_order, commands_of, lexer_alternative_of, rule_lexer_alternatives, lexer_rule_of, section_of, sections_of};

use crate::lexer_element::elements;
use g4_base::{Sequence, Text};
use g4_cursor::{Cursor, pass_optional_options};
use g4_grammar_tokens::Kind;
use g4_source::{Argument, Command, Elements, LexerAlternative, LexerRule};
use std::alloc::AllocError;

/// The name that says that a lexer rule is no token.
const FRAGMENT: &str = "fragment";

/// The name that a mode begins with.
const MODE: &str = "mode";

/// A name or a number.
fn argument_text(cursor: &mut Cursor<'_>) -> Result<Argument, AllocError>
    ensures { Gives argument_text_of cursor.old cursor.new result }
{
    if cursor.is_at_name() {
        let name = cursor.name_text()?;
        return Ok(Argument::Name(name));
    }
    let number = cursor.text(Kind::Number)?;
    Ok(Argument::Number(number))
}

/// The argument of a command in brackets, if it has one.
fn argument(cursor: &mut Cursor<'_>) -> Result<Option<Argument>, AllocError>
    ensures { Gives argument_of cursor.old cursor.new result }
{
    if !cursor.is_at(Kind::LeftParenthesis) {
        return Ok(None);
    }
    cursor.take(Kind::LeftParenthesis);
    let argument = argument_text(cursor)?;
    cursor.take(Kind::RightParenthesis);
    Ok(Some(argument))
}

/// A command.
fn command(cursor: &mut Cursor<'_>) -> Result<Command, AllocError>
    ensures { Gives command_of cursor.old cursor.new result }
{
    let name = cursor.name()?;
    let argument = argument(cursor)?;
    Ok(Command { name, argument })
}

/// Commands with commas between.
fn commands_in_order(cursor: &mut Cursor<'_>) -> Result<Sequence<Command>, AllocError>
    ensures { Gives commands_in_order cursor.old cursor.new result }
{
    let first = command(cursor)?;
    let mut commands = vec![in cursor.alloc(); first]?;
    while cursor.is_at(Kind::Comma) {
        cursor.take(Kind::Comma);
        let command = command(cursor)?;
        commands.push(command)?;
    }
    Ok(Sequence::new(commands))
}

/// The commands after `->`, if it is there.
fn commands(cursor: &mut Cursor<'_>) -> Result<Sequence<Command>, AllocError>
    ensures { Gives commands_of cursor.old cursor.new result }
{
    if !cursor.is_at(Kind::Arrow) {
        return Ok(Sequence::new(Vec::new(cursor.alloc())));
    }
    cursor.take(Kind::Arrow);
    let commands = commands_in_order(cursor)?;
    Ok(commands)
}

/// An alternative of a lexer rule.
fn lexer_alternative(cursor: &mut Cursor<'_>) -> Result<LexerAlternative, AllocError>
    ensures { Gives lexer_alternative_of cursor.old cursor.new result }
{
    let elements = Elements::new(elements(cursor)?);
    let commands = commands(cursor)?;
    Ok(LexerAlternative { elements, commands })
}

/// The alternatives of a lexer rule, with bars between.
fn alternatives(cursor: &mut Cursor<'_>) -> Result<Sequence<LexerAlternative>, AllocError>
    ensures { Gives rule_lexer_alternatives cursor.old cursor.new result }
{
    let first = lexer_alternative(cursor)?;
    let mut alternatives = vec![in cursor.alloc(); first]?;
    while cursor.is_at(Kind::Bar) {
        cursor.take(Kind::Bar);
        let alternative = lexer_alternative(cursor)?;
        alternatives.push(alternative)?;
    }
    Ok(Sequence::new(alternatives))
}

/// Takes `fragment` if it is there, and says whether it was.
fn fragment(cursor: &mut Cursor<'_>) -> bool
    ensures { Moves {x = optional (word (codes "fragment"))} (λ tree. result ≡ is_present tree) cursor.old cursor.new }
{
    if !cursor.is_at_word(FRAGMENT) {
        return false;
    }
    cursor.take_word(FRAGMENT);
    true
}

/// Whether a lexer rule is next.
pub(crate) fn is_at_lexer_rule(cursor: &Cursor<'_>) -> bool
    ensures { result ≡ is_next a_lexer_rule cursor.now }
{
    cursor.is_at_word(FRAGMENT) | cursor.is_at(Kind::Upper)
}

/// A lexer rule.
pub(crate) fn lexer_rule(cursor: &mut Cursor<'_>) -> Result<LexerRule, AllocError>
    ensures { Gives lexer_rule_of cursor.old cursor.new result }
{
    let fragment = fragment(cursor);
    let name = cursor.text(Kind::Upper)?;
    pass_optional_options(cursor)?;
    cursor.take(Kind::Colon);
    let alternatives = alternatives(cursor)?;
    cursor.take(Kind::Semicolon);
    Ok(LexerRule {
        mode: None,
        fragment,
        name,
        alternatives,
    })
}

/// `mode`, a name, and the rules after it.
#[derive(Drop)]
pub(crate) struct ModeSection {
    pub(crate) name: Text,
    pub(crate) rules: Sequence<LexerRule>,
}

/// A section and its rules.
fn section(cursor: &mut Cursor<'_>) -> Result<ModeSection, AllocError>
    ensures { Gives section_of cursor.old cursor.new result }
{
    cursor.take_word(MODE);
    let name = cursor.name_text()?;
    cursor.take(Kind::Semicolon);
    let mut rules = Vec::new(cursor.alloc());
    while is_at_lexer_rule(cursor) {
        let rule = lexer_rule(cursor)?;
        rules.push(rule)?;
    }
    let rules = Sequence::new(rules);
    Ok(ModeSection { name, rules })
}

/// Sections one after another.
pub(crate) fn sections(cursor: &mut Cursor<'_>) -> Result<Sequence<ModeSection>, AllocError>
    ensures { Gives sections_of cursor.old cursor.new result }
{
    let mut sections = Vec::new(cursor.alloc());
    while cursor.is_at_word(MODE) {
        let section = section(cursor)?;
        sections.push(section)?;
    }
    Ok(Sequence::new(sections))
}
