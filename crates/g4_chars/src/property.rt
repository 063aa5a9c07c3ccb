// The properties of characters that have a name.
ghost use Rattle.std.specs.Prelude.{◌≡◌, IfOk, length, Some};
ghost use Rattle.std.specs.Char.{is_ascii, is_ascii_lowercase};
ghost use Rattle.std.specs.List.{list_all};
ghost use Rattle.ucd_sets.specs.Lookup.{by_value};
ghost use Rattle.ucd_sets.specs.Loose.{normalize};
ghost use Rattle.g4_chars.specs.Properties.{is_capitalized, letters_of, if_short, category_named, white_space_named, script_named, property_named};

use std::alloc::{AllocError, Global};
use unicode::sets::{BinaryProperty, Set, by_value, normalize};

fn are_small(letters: &[char]) -> bool
    ensures { result ≡ list_all is_ascii_lowercase letters.now }
{
    letters.iter().all(|c| c.is_ascii_lowercase())
}

fn are_ascii(name: &[char]) -> bool
    ensures { result ≡ list_all is_ascii name.now }
{
    name.iter().all(|c| c.is_ascii())
}

fn is_capitalized(name: &[char]) -> bool
    ensures { result ≡ is_capitalized name.now }
{
    match name {
        [] => false,
        [first, rest @ ..] => first.is_ascii_uppercase() && are_small(rest),
    }
}

fn letters_of(set: Set) -> usize
    ensures { result ≡ letters_of set }
{
    match set {
        Set::Category(_) => 2,
        Set::CategoryGroup(_) => 1,
        _ => 0,
    }
}

fn if_short(count: usize, set: Set) -> Option<Set>
    ensures { result ≡ if_short count set }
{
    if count == letters_of(set) {
        Some(set)
    } else {
        None
    }
}

/// The value of a property, both by the names that `normalize` gives.
fn value_named(property: &[u8], value: &[u8]) -> Option<Set>
    ensures { result ≡ by_value property.now value.now }
{
    by_value(property, value).ok()
}

fn category_named(name: &[char], key: &[u8]) -> Option<Set>
    requires { key.now ≡ normalize name.now }
    ensures { result ≡ category_named name.now }
{
    if is_capitalized(name) {
        if_short(name.len(), value_named(b"gc", key)?)
    } else {
        None
    }
}

fn white_space_named(name: &[char]) -> Option<Set>
    ensures { result ≡ white_space_named name.now }
{
    if name == ['W', 'h', 'i', 't', 'e', '_', 'S', 'p', 'a', 'c', 'e'].as_slice() {
        Some(Set::Binary(BinaryProperty::WhiteSpace))
    } else {
        None
    }
}

fn script_named(name: &[char], key: &[u8]) -> Option<Set>
    requires { key.now ≡ normalize name.now }
    ensures { result ≡ script_named name.now }
{
    if are_ascii(name) {
        value_named(b"sc", key)
    } else {
        None
    }
}

/// The property with this name: a general category, a group of them or `White_Space` by exactly that name, or a script by
/// any of its names, as loosely as `unicode` compares them.
pub fn property_named(alloc: Global, name: &[char]) -> Result<Option<Set>, AllocError>
    ensures { IfOk result (λ found. found ≡ property_named name.now) }
{
    let key = normalize(alloc, name)?;
    Ok(
        category_named(name, &key)
            .or_else(|| white_space_named(name))
            .or_else(|| script_named(name, &key)),
    )
}
