// A whole grammar text.
ghost use Rattle.std.specs.Prelude.{◌≡◌, ◌++◌, IfOk, OnOk, map};
ghost use Rattle.std.specs.List.{flat_map};
ghost use Rattle.g4_cursor.specs.Progress.{Gives, Moves};
ghost use Rattle.g4_productions.specs.Grammars.{combined_of, heading_name, heading_prequels, lexer_grammar_of, parser_grammar_of, source_of};
ghost use Rattle.g4_productions.specs.Rules.{combined_rules, default_rules, in_mode, parser_rules, section_rules};

use crate::lexer_rule::{ModeSection, is_at_lexer_rule, lexer_rule, sections};
use crate::parser_rule::parser_rule;
use g4_base::{Sequence, Text};
use g4_cursor::{Cursor, prequels};
use g4_grammar_tokens::Kind;
use g4_source::{GrammarKind, LexerRule, Prequel, Rule, Source};
use std::alloc::{AllocError, Global};

/// The words that a grammar text begins with.
const GRAMMAR: &str = "grammar";

const LEXER: &str = "lexer";

const PARSER: &str = "parser";

/// What follows the words that say of which kind a grammar text is.
#[derive(Drop)]
struct Heading {
    name: Text,
    prequels: Sequence<Prequel>,
}

/// The grammar's name and its prequels.
fn read_heading(cursor: &mut Cursor<'_>) -> Result<Heading, AllocError>
    ensures { IfOk result (λ h. Moves (λ tree. (h.name ≡ heading_name tree) × (h.prequels ≡ heading_prequels tree)) cursor.old cursor.new) }
{
    let name = cursor.name_text()?;
    cursor.take(Kind::Semicolon);
    let prequels = prequels(cursor)?;
    Ok(Heading { name, prequels })
}

/// The rules of a combined grammar.
fn combined_rules(cursor: &mut Cursor<'_>) -> Result<Sequence<Rule>, AllocError>
    ensures { Gives combined_rules cursor.old cursor.new result }
{
    let mut rules = Vec::new(cursor.alloc());
    loop {
        if is_at_lexer_rule(cursor) {
            let rule = lexer_rule(cursor)?;
            rules.push(Rule::Lexer(rule))?;
        } else if cursor.is_at(Kind::Lower) {
            let rule = parser_rule(cursor)?;
            rules.push(Rule::Parser(rule))?;
        } else {
            return Ok(Sequence::new(rules));
        }
    }
}

/// The rules of a parser grammar.
fn parser_rules(cursor: &mut Cursor<'_>) -> Result<Sequence<Rule>, AllocError>
    ensures { Gives parser_rules cursor.old cursor.new result }
{
    let mut rules = Vec::new(cursor.alloc());
    while cursor.is_at(Kind::Lower) {
        let rule = parser_rule(cursor)?;
        rules.push(Rule::Parser(rule))?;
    }
    Ok(Sequence::new(rules))
}

/// The rules of a lexer grammar before the first `mode`.
fn default_rules(cursor: &mut Cursor<'_>) -> Result<Sequence<Rule>, AllocError>
    ensures { Gives default_rules cursor.old cursor.new result }
{
    let mut rules = Vec::new(cursor.alloc());
    while is_at_lexer_rule(cursor) {
        let rule = lexer_rule(cursor)?;
        rules.push(Rule::Lexer(rule))?;
    }
    Ok(Sequence::new(rules))
}

/// Adds the rules of a mode.
fn add_rules(
    alloc: Global,
    rules: &mut Vec<Rule>,
    mode: &Text,
    more: Sequence<LexerRule>,
) -> Result<(), AllocError>
    ensures { OnOk result (rules.new.items ≡ rules.old.items ++ map (in_mode mode.now) more) }
{
    for rule in more.into_vec() {
        let LexerRule {
            fragment,
            name,
            alternatives,
            ..
        } = rule;
        rules.push(Rule::Lexer(LexerRule {
            mode: Some(Text::copy_of(alloc, mode.as_str())?),
            fragment,
            name,
            alternatives,
        }))?;
    }
    Ok(())
}

/// The rules of a lexer grammar in order, and the names of its modes.
#[derive(Drop)]
struct AllRules {
    rules: Sequence<Rule>,
    modes: Sequence<Text>,
}

/// The rules before the sections, and then those of the sections, each with its mode.
fn joined(
    alloc: Global,
    first: Sequence<Rule>,
    sections: Sequence<ModeSection>,
) -> Result<AllRules, AllocError>
    ensures rules { IfOk result (λ all. all.rules ≡ first ++ flat_map section_rules sections) }
    ensures modes { IfOk result (λ all. all.modes ≡ map (λ section. section.name) sections) }
{
    let mut rules = first.into_vec();
    let mut modes = Vec::new(alloc);
    for section in sections.into_vec() {
        let ModeSection { name, rules: more } = section;
        add_rules(alloc, &mut rules, &name, more)?;
        modes.push(name)?;
    }
    Ok(AllRules {
        rules: Sequence::new(rules),
        modes: Sequence::new(modes),
    })
}

/// A combined grammar.
fn combined_grammar(cursor: &mut Cursor<'_>) -> Result<Source, AllocError>
    ensures { Gives combined_of cursor.old cursor.new result }
{
    let place = cursor.take_word(GRAMMAR).place;
    let Heading { name, prequels } = read_heading(cursor)?;
    let rules = combined_rules(cursor)?;
    Ok(Source {
        place,
        kind: GrammarKind::Combined,
        name,
        prequels,
        rules,
        modes: Sequence::new(Vec::new(cursor.alloc())),
    })
}

/// A lexer grammar.
fn lexer_grammar(cursor: &mut Cursor<'_>) -> Result<Source, AllocError>
    ensures { Gives lexer_grammar_of cursor.old cursor.new result }
{
    let place = cursor.take_word(LEXER).place;
    cursor.take_word(GRAMMAR);
    let Heading { name, prequels } = read_heading(cursor)?;
    let first = default_rules(cursor)?;
    let sections = sections(cursor)?;
    let all = joined(cursor.alloc(), first, sections)?;
    Ok(Source {
        place,
        kind: GrammarKind::Lexer,
        name,
        prequels,
        rules: all.rules,
        modes: all.modes,
    })
}

/// A parser grammar.
fn parser_grammar(cursor: &mut Cursor<'_>) -> Result<Source, AllocError>
    ensures { Gives parser_grammar_of cursor.old cursor.new result }
{
    let place = cursor.take_word(PARSER).place;
    cursor.take_word(GRAMMAR);
    let Heading { name, prequels } = read_heading(cursor)?;
    let rules = parser_rules(cursor)?;
    Ok(Source {
        place,
        kind: GrammarKind::Parser,
        name,
        prequels,
        rules,
        modes: Sequence::new(Vec::new(cursor.alloc())),
    })
}

/// A grammar.
pub(crate) fn grammar(cursor: &mut Cursor<'_>) -> Result<Source, AllocError>
    ensures { Gives source_of cursor.old cursor.new result }
{
    if cursor.is_at_word(GRAMMAR) {
        let source = combined_grammar(cursor)?;
        return Ok(source);
    }
    if cursor.is_at_word(LEXER) {
        let source = lexer_grammar(cursor)?;
        return Ok(source);
    }
    let source = parser_grammar(cursor)?;
    Ok(source)
}
