// Names with their first letter made upper case.
ghost use Rattle.std.specs.Prelude.{◌≡◌, IfOk, map, string_bytes, encode_utf8};
ghost use Rattle.std.specs.StrCase.Upper.{str_to_uppercase};
ghost use Rattle.g4_checks.specs.Labels.{capitalised, capitalised_names};

use g4_base::Text;
use g4_source::{Atom, ParserRule};
use std::alloc::{AllocError, Global};

/// The character in upper case, which can be more than one.
fn uppercase(alloc: Global, character: char) -> Result<String, AllocError>
    ensures { IfOk result (λ text. string_bytes text ≡ str_to_uppercase (encode_utf8 character)) }
{
    let mut letter = String::new(alloc);
    letter.push(character)?;
    let text = letter.as_str().to_uppercase(alloc)?;
    Ok(text)
}

/// The name with its first letter made upper case.
fn capitalised(alloc: Global, name: &str) -> Result<Text, AllocError>
    ensures { IfOk result (λ text. text ≡ capitalised name.now) }
{
    let mut characters = name.chars();
    let Some(first) = characters.next() else {
        return Ok(Text::new(String::new(alloc)));
    };
    let mut text = uppercase(alloc, first)?;
    text.push_str(characters.as_str())?;
    Ok(Text::new(text))
}

/// The names of the rules, each with its first letter made upper case.
///
/// # Errors
/// No memory.
pub fn capitalised_names(
    alloc: Global,
    rules: &[&ParserRule<Atom>],
) -> Result<Vec<Text>, AllocError>
    ensures { IfOk result (λ names. names.items ≡ capitalised_names (map (λ r. r.now) rules.now)) }
{
    let mut names = Vec::new(alloc);
    for rule in rules {
        names.push(capitalised(alloc, rule.name.as_str())?)?;
    }
    Ok(names)
}
