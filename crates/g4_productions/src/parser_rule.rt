// Parser rules.
ghost use Rattle.g4_cursor.specs.Progress.{Gives};
ghost use Rattle.g4_productions.specs.Rules.{alternative_label as label_of, rule_alternative_of, rule_alternatives_of, parser_rule_of};

use crate::parser_element::elements;
use g4_base::{Sequence, Text};
use g4_cursor::{
    Cursor, optional_element_options, pass_handlers, pass_modifier, pass_rule_prequels,
};
use g4_grammar_tokens::Kind;
use g4_source::{Atom, Elements, ParserRule, RuleAlternative};
use std::alloc::AllocError;

/// The label of an alternative, if it has one.
fn alternative_label(cursor: &mut Cursor<'_>) -> Result<Option<Text>, AllocError>
    ensures { Gives label_of cursor.old cursor.new result }
{
    if !cursor.is_at(Kind::Hash) {
        return Ok(None);
    }
    cursor.take(Kind::Hash);
    let name = cursor.name_text()?;
    Ok(Some(name))
}

/// An alternative of a rule.
fn rule_alternative(cursor: &mut Cursor<'_>) -> Result<RuleAlternative<Atom>, AllocError>
    ensures { Gives rule_alternative_of cursor.old cursor.new result }
{
    let begins = optional_element_options(cursor)?;
    let list = elements(cursor)?;
    let label = alternative_label(cursor)?;
    Ok(RuleAlternative {
        right: begins | list.right,
        elements: Elements::new(list.elements),
        label,
    })
}

/// The alternatives of a rule, with bars between.
fn alternatives(cursor: &mut Cursor<'_>) -> Result<Sequence<RuleAlternative<Atom>>, AllocError>
    ensures { Gives rule_alternatives_of cursor.old cursor.new result }
{
    let first = rule_alternative(cursor)?;
    let mut alternatives = vec![in cursor.alloc(); first]?;
    while cursor.is_at(Kind::Bar) {
        cursor.take(Kind::Bar);
        let alternative = rule_alternative(cursor)?;
        alternatives.push(alternative)?;
    }
    Ok(Sequence::new(alternatives))
}

/// A parser rule.
pub(crate) fn parser_rule(cursor: &mut Cursor<'_>) -> Result<ParserRule<Atom>, AllocError>
    ensures { Gives parser_rule_of cursor.old cursor.new result }
{
    pass_modifier(cursor);
    let name = cursor.text(Kind::Lower)?;
    pass_rule_prequels(cursor)?;
    cursor.take(Kind::Colon);
    let alternatives = alternatives(cursor)?;
    cursor.take(Kind::Semicolon);
    pass_handlers(cursor);
    Ok(ParserRule { name, alternatives })
}
