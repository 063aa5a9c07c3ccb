// Which rules are the first of their name.
ghost use Rattle.std.specs.Prelude.{◌≡◌, [], IfOk, map};
ghost use Rattle.g4_merge.specs.Merging.{are_new};
ghost use Rattle.g4_source.specs.Rules.{rule_name};

use g4_names::Places;
use g4_source::Rule;
use std::alloc::{AllocError, Global};

/// Of each rule whether no earlier one has its name.
pub(crate) fn new_names(alloc: Global, rules: &[Rule]) -> Result<Vec<bool>, AllocError>
    ensures { IfOk result (λ new. new.items ≡ are_new [] (map rule_name rules.now)) }
{
    let mut places = Places::new(alloc);
    let mut new = Vec::with_capacity(alloc, rules.len())?;
    for rule in rules {
        let name = rule.name();
        new.push(places.place_of(name).is_none())?;
        places.add(name, 0)?;
    }
    Ok(new)
}
