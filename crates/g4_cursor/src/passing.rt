// What is passed over: what a grammar text says only to tools that write code.
ghost use Rattle.std.specs.Prelude.{◌≡◌, OnOk, codes};
ghost use Rattle.g4_grammar_tokens.specs.declared.token.Kind.TheVariants as kinds;
ghost use Rattle.g4_syntax.specs.Notation.{optional, repeated, sign, word, ◌▸◌, ◌∣◌, name as a_name, with_commas};
ghost use Rattle.g4_syntax.specs.Productions.{modifier, rule_action, options as an_options, block_prequel, rule_prequels, handlers};
ghost use Rattle.g4_cursor.specs.Progress.{is_next, Passes};

use crate::cursor::Cursor;
use crate::options::options;
use g4_grammar_tokens::Kind;
use std::alloc::AllocError;

/// Passes what may come before a parser rule's name.
pub fn pass_modifier(cursor: &mut Cursor<'_>)
    ensures { Passes (optional modifier) cursor.old cursor.new }
{
    if cursor.is_at_word("public") {
        cursor.take_word("public");
        return;
    }
    if cursor.is_at_word("private") {
        cursor.take_word("private");
        return;
    }
    if cursor.is_at_word("protected") {
        cursor.take_word("protected");
    }
}

/// Passes an action with a name in a rule or a block.
fn pass_rule_action(cursor: &mut Cursor<'_>)
    ensures { Passes rule_action cursor.old cursor.new }
{
    cursor.take(Kind::At);
    cursor.take_name();
    cursor.take(Kind::Action);
}

/// Passes options that do not count, where there may be some.
pub fn pass_optional_options(cursor: &mut Cursor<'_>) -> Result<(), AllocError>
    ensures { OnOk result (Passes (optional an_options) cursor.old cursor.new) }
{
    if !cursor.is_at_word("options") {
        return Ok(());
    }
    let _ = options(cursor)?;
    Ok(())
}

/// Passes this word and a token of this kind, if the word is next.
fn pass_clause(cursor: &mut Cursor<'_>, spelling: &str, kind: Kind)
    ensures { Passes (optional (word spelling.now ▸ sign kind)) cursor.old cursor.new }
{
    if cursor.is_at_word(spelling) {
        cursor.take_word(spelling);
        cursor.take(kind);
    }
}

/// Passes the exceptions that a rule throws, if there are some.
fn pass_throws(cursor: &mut Cursor<'_>)
    ensures { Passes (optional (word (codes "throws") ▸ with_commas a_name)) cursor.old cursor.new }
{
    if !cursor.is_at_word("throws") {
        return;
    }
    cursor.take_word("throws");
    cursor.take_name();
    while cursor.is_at(Kind::Comma) {
        cursor.take(Kind::Comma);
        cursor.take_name();
    }
}

/// Passes options or an action of a rule.
fn pass_declaration(cursor: &mut Cursor<'_>) -> Result<(), AllocError>
    ensures { OnOk result (Passes (an_options ∣ rule_action) cursor.old cursor.new) }
{
    if cursor.is_at_word("options") {
        let _ = options(cursor)?;
        return Ok(());
    }
    pass_rule_action(cursor);
    Ok(())
}

/// Whether options or an action of a rule are next.
fn is_at_declaration(cursor: &Cursor<'_>) -> bool
    ensures { result ≡ is_next (an_options ∣ rule_action) cursor.now }
{
    cursor.is_at_word("options") | cursor.is_at(Kind::At)
}

/// Passes options and actions of a rule.
fn pass_declarations(cursor: &mut Cursor<'_>) -> Result<(), AllocError>
    ensures { OnOk result (Passes (repeated (an_options ∣ rule_action)) cursor.old cursor.new) }
{
    while is_at_declaration(cursor) {
        pass_declaration(cursor)?;
    }
    Ok(())
}

/// Passes what may come between a parser rule's name and its `:`.
pub fn pass_rule_prequels(cursor: &mut Cursor<'_>) -> Result<(), AllocError>
    ensures { OnOk result (Passes rule_prequels cursor.old cursor.new) }
{
    cursor.take_if(Kind::Arguments);
    pass_clause(cursor, "returns", Kind::Arguments);
    pass_throws(cursor);
    pass_clause(cursor, "locals", Kind::Arguments);
    pass_declarations(cursor)?;
    Ok(())
}

/// Passes actions with names.
fn pass_rule_actions(cursor: &mut Cursor<'_>)
    ensures { Passes (repeated rule_action) cursor.old cursor.new }
{
    while cursor.is_at(Kind::At) {
        pass_rule_action(cursor);
    }
}

/// Whether what may come before the alternatives of a block is next.
fn is_at_block_prequel(cursor: &Cursor<'_>) -> bool
    ensures { result ≡ is_next block_prequel cursor.now }
{
    is_at_declaration(cursor) | cursor.is_at(Kind::Colon)
}

/// Passes what may come before the alternatives of a block.
pub fn pass_block_prequel(cursor: &mut Cursor<'_>) -> Result<(), AllocError>
    ensures { OnOk result (Passes (optional block_prequel) cursor.old cursor.new) }
{
    if !is_at_block_prequel(cursor) {
        return Ok(());
    }
    pass_optional_options(cursor)?;
    pass_rule_actions(cursor);
    cursor.take(Kind::Colon);
    Ok(())
}

/// Passes what may follow a parser rule.
pub fn pass_handlers(cursor: &mut Cursor<'_>)
    ensures { Passes handlers cursor.old cursor.new }
{
    while cursor.is_at_word("catch") {
        cursor.take_word("catch");
        cursor.take(Kind::Arguments);
        cursor.take(Kind::Action);
    }
    pass_clause(cursor, "finally", Kind::Action);
}
