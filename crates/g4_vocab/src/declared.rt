// The tokens that a grammar declares before its rules, in order of the text.
ghost use Rattle.std.specs.Prelude.{◌≡◌, ◌++◌, IfOk, OnOk, map};
ghost use Rattle.g4_vocab.specs.Numbering.{all_declared, declared_by, name_token};
ghost use Rattle.g4_vocab.specs.Tables.{reference_of};

use crate::references::Reference;
use g4_base::Text;
use g4_source::Prequel;
use std::alloc::{AllocError, Global};

/// Adds the tokens of these names.
fn push_names<'a>(found: &mut Vec<Reference<'a>>, names: &'a [Text]) -> Result<(), AllocError>
    ensures { OnOk result (map reference_of found.new.items ≡ map reference_of found.old.items ++ map name_token names.now) }
{
    for name in names {
        found.push(Reference::Token(name.as_str()))?;
    }
    Ok(())
}

/// Adds the tokens that something before the rules declares.
fn push_prequel<'a>(found: &mut Vec<Reference<'a>>, prequel: &'a Prequel) -> Result<(), AllocError>
    ensures { OnOk result (map reference_of found.new.items ≡ map reference_of found.old.items ++ declared_by prequel.now) }
{
    match prequel {
        Prequel::Tokens(_, names) => push_names(found, names.as_slice())?,
        _ => {}
    }
    Ok(())
}

/// The tokens that these declare.
pub fn declared_of(alloc: Global, prequels: &[Prequel]) -> Result<Vec<Reference<'_>>, AllocError>
    ensures { IfOk result (λ found. map reference_of found.items ≡ all_declared prequels.now) }
{
    let mut found = Vec::new(alloc);
    for prequel in prequels {
        push_prequel(&mut found, prequel)?;
    }
    Ok(found)
}
