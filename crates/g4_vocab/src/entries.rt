// What is kept of the entries of a table of token types.
ghost use Rattle.std.specs.Prelude.{◌≡◌, IfOk};
ghost use Rattle.g4_vocab.specs.Shown.{entry_name, names_of};

use g4_base::{Sequence, Text};
use g4_grammar::TokenName;
use g4_token_file::{TokenEntry, TokenKey};
use std::alloc::{AllocError, Global};

/// An entry's type with its name, where its key is a name.
fn entry_name(alloc: Global, entry: &TokenEntry) -> Result<Option<TokenName>, AllocError>
    ensures { IfOk result (λ name. name ≡ entry_name entry.now) }
{
    match &entry.key {
        TokenKey::Name(name) => {
            let name = Text::copy_of(alloc, name.as_str())?;
            Ok(Some(TokenName {
                name,
                symbol: entry.number,
            }))
        }
        TokenKey::Literal(_) => Ok(None),
    }
}

/// The types that have names, with these, in the order of the table.
pub fn names_of(alloc: Global, entries: &[TokenEntry]) -> Result<Sequence<TokenName>, AllocError>
    ensures { IfOk result (λ names. names ≡ names_of entries.now) }
{
    let mut names = Vec::new(alloc);
    for entry in entries {
        if let Some(name) = entry_name(alloc, entry)? {
            names.push(name)?;
        }
    }
    Ok(Sequence::new(names))
}
