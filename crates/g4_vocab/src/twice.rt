// Rule names that are used twice.
ghost use Rattle.std.specs.Prelude.{◌≡◌, IfOk, [], option_map};
ghost use Rattle.g4_vocab.specs.Names.{HasOwnNames, first_repeated};

use g4_base::Text;
use g4_source::{Rule, Source};
use std::alloc::{AllocError, Global};
use std::collections::BTreeSet;

/// Why the names of the rules of a grammar are refused.
#[derive(Drop)]
pub enum NameFault {
    /// The name of the first rule whose name an earlier rule has.
    RuleTwice(Text),
    NoMemory,
}

impl From<AllocError> for NameFault {
    ghost use Rattle.std.specs.Prelude.{◌≡◌};
    ghost use Rattle.g4_vocab.specs.declared.twice.NameFault.TheVariants.{NoMemory};

    ghost from_gives = { λ _ e. e ≡ NoMemory };

    fn from(_: AllocError) -> Self {
        NameFault::NoMemory
    }
}

/// The name of the first rule whose name an earlier rule has.
fn first_repeated(alloc: Global, rules: &[Rule]) -> Result<Option<&str>, AllocError>
    ensures { IfOk result (λ found. option_map (λ name. name.now) found ≡ first_repeated [] rules.now) }
{
    let mut seen = BTreeSet::new(alloc);
    for rule in rules {
        let name = rule.name();
        if !seen.insert(name)? {
            return Ok(Some(name));
        }
    }
    Ok(None)
}

/// Looks for the first rule, in order of the text, whose name an earlier rule has.
///
/// # Errors
/// Its name, or no memory.
pub fn check_names(alloc: Global, source: &Source) -> Result<(), NameFault>
    ensures { HasOwnNames source.now.rules result }
{
    match first_repeated(alloc, source.rules.as_slice())? {
        Some(name) => Err(NameFault::RuleTwice(Text::copy_of(alloc, name)?)),
        None => Ok(()),
    }
}
