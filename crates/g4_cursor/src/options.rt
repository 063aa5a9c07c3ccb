// Options and their values.
ghost use Rattle.std.specs.Prelude.{◌≡◌, ◌&&◌, codes, bytes_eq};
ghost use Rattle.g4_cursor.specs.Progress.{Gives};
ghost use Rattle.g4_cursor.specs.Options.{dotted_names, value_of, setting_of, settings_in_order, settings_of, is_right as is_right_value, says_right, right_of, right_of_optional};

use crate::cursor::Cursor;
use g4_base::{Sequence, Text};
use g4_grammar_tokens::Kind;
use g4_source::{OptionValue, Setting};
use std::alloc::AllocError;

/// Names with dots between.
fn dotted_names(cursor: &mut Cursor<'_>) -> Result<Sequence<Text>, AllocError>
    ensures { Gives dotted_names cursor.old cursor.new result }
{
    let first = cursor.name_text()?;
    let mut names = vec![in cursor.alloc(); first]?;
    while cursor.is_at(Kind::Dot) {
        cursor.take(Kind::Dot);
        let name = cursor.name_text()?;
        names.push(name)?;
    }
    Ok(Sequence::new(names))
}

/// The value of an option.
fn value(cursor: &mut Cursor<'_>) -> Result<OptionValue, AllocError>
    ensures { Gives value_of cursor.old cursor.new result }
{
    if cursor.is_at_name() {
        let names = dotted_names(cursor)?;
        return Ok(OptionValue::Names(names));
    }
    if cursor.is_at(Kind::Literal) {
        let literal = cursor.text(Kind::Literal)?;
        return Ok(OptionValue::Literal(literal));
    }
    if cursor.is_at(Kind::Number) {
        let number = cursor.text(Kind::Number)?;
        return Ok(OptionValue::Number(number));
    }
    if cursor.is_at(Kind::Action) {
        let action = cursor.text(Kind::Action)?;
        return Ok(OptionValue::Action(action));
    }
    cursor.take(Kind::Star);
    Ok(OptionValue::Star)
}

/// An option, its value and `;`.
fn setting(cursor: &mut Cursor<'_>) -> Result<Setting, AllocError>
    ensures { Gives setting_of cursor.old cursor.new result }
{
    let name = cursor.name()?;
    cursor.take(Kind::Equals);
    let value = value(cursor)?;
    cursor.take(Kind::Semicolon);
    Ok(Setting { name, value })
}

/// Settings one after another.
fn settings(cursor: &mut Cursor<'_>) -> Result<Sequence<Setting>, AllocError>
    ensures { Gives settings_in_order cursor.old cursor.new result }
{
    let mut settings = Vec::new(cursor.alloc());
    while cursor.is_at_name() {
        let setting = setting(cursor)?;
        settings.push(setting)?;
    }
    Ok(Sequence::new(settings))
}

/// The settings of `options`.
pub fn options(cursor: &mut Cursor<'_>) -> Result<Sequence<Setting>, AllocError>
    ensures { Gives settings_of cursor.old cursor.new result }
{
    cursor.take_word("options");
    cursor.take(Kind::LeftBrace);
    let settings = settings(cursor)?;
    cursor.take(Kind::RightBrace);
    Ok(settings)
}

/// Whether the value is the name `right`.
fn is_right(value: &OptionValue) -> bool
    ensures { result ≡ is_right_value value.now }
{
    match value {
        OptionValue::Names(names) => match names.as_slice() {
            [name] => name.as_str() == "right",
            _ => false,
        },
        _ => false,
    }
}

/// Whether the name is `assoc` and the value the name `right`.
fn is_association(name: &Text, value: &OptionValue) -> bool
    ensures { result ≡ (bytes_eq name.now (codes "assoc") && is_right_value value.now) }
{
    name.as_str() == "assoc" && is_right(value)
}

/// Whether the option of an element is `assoc=right`.
fn element_option(cursor: &mut Cursor<'_>) -> Result<bool, AllocError>
    ensures { Gives says_right cursor.old cursor.new result }
{
    let name = cursor.name_text()?;
    if !cursor.is_at(Kind::Equals) {
        return Ok(false);
    }
    cursor.take(Kind::Equals);
    let value = value(cursor)?;
    Ok(is_association(&name, &value))
}

/// Whether one of the options of an element is `assoc=right`.
fn element_options(cursor: &mut Cursor<'_>) -> Result<bool, AllocError>
    ensures { Gives right_of cursor.old cursor.new result }
{
    cursor.take(Kind::Less);
    let mut right = element_option(cursor)?;
    while cursor.is_at(Kind::Comma) {
        cursor.take(Kind::Comma);
        let says = element_option(cursor)?;
        right |= says;
    }
    cursor.take(Kind::Greater);
    Ok(right)
}

/// The same where there may be no options.
pub fn optional_element_options(cursor: &mut Cursor<'_>) -> Result<bool, AllocError>
    ensures { Gives right_of_optional cursor.old cursor.new result }
{
    if !cursor.is_at(Kind::Less) {
        return Ok(false);
    }
    let right = element_options(cursor)?;
    Ok(right)
}
