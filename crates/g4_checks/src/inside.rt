// The first rule that a predicate names in `inside(..)` and that is not there.
ghost use Rattle.std.specs.Prelude.{IfOk, option_map};
ghost use Rattle.g4_checks.specs.Names.{is_one_of};
ghost use Rattle.g4_checks.specs.Predicates.{IsMissing, NamesMissing};
ghost use Rattle.g4_source.specs.First.{Finds, FindsFirst};

use crate::names::{Names, copied};
use crate::readings::predicate_of;
use g4_base::Text;
use g4_source::Name;
use std::alloc::{AllocError, Global};

/// The first of the rules that is not one of these.
fn first_missing<'a>(parsers: &Names<'_>, rules: &'a [Text]) -> Option<&'a str>
    ensures { FindsFirst (IsMissing (is_one_of parsers.now)) rules.now (option_map (λ n. n.now) result) }
{
    for rule in rules {
        if !parsers.has(rule.as_str()) {
            return Some(rule.as_str());
        }
    }
    None
}

/// The first rule that the predicate with this action names and that is not one of these.
///
/// # Errors
/// No memory.
pub fn undefined_inside(
    alloc: Global,
    parsers: &Names<'_>,
    written: &Name,
) -> Result<Option<Text>, AllocError>
    ensures { IfOk result (Finds (NamesMissing (is_one_of parsers.now)) written.now) }
{
    let Some(predicate) = predicate_of(alloc, written)? else {
        return Ok(None);
    };
    let rules = predicate.rules_named(alloc)?;
    let found = copied(alloc, first_missing(parsers, rules.as_slice()))?;
    Ok(found)
}
