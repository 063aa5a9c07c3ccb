// Rules in the form in which they are laid.
ghost use Rattle.std.specs.Prelude.{◌≡◌, map};
ghost use Rattle.g4_source.specs.Rules.{alternatives_of};
ghost use Rattle.g4_grammar.specs.StepRules.{CanBeLaid};
ghost use Rattle.g4_layout.specs.Numbers.{NumberingsFit};

use g4_grammar::{Numbering, StepRule};
use std::marker::Model;

/// Rules in the form in which they are laid, and their numberings: a network can be laid of them. Contracts see the list of the rules
/// and that of their numberings.
#[derive(Drop)]
pub struct LaidRules {
    rules: Vec<StepRule>,
    numberings: Vec<Numbering>,
}

impl Model for LaidRules {
    ghost use Rattle.std.specs.Prelude.{List, map};
    ghost use Rattle.std.specs.Coded.{codes};
    ghost use Rattle.g4_source.specs.Marks.{elements_code};
    ghost use Rattle.g4_source.specs.Rules.{alternatives_of};
    ghost use Rattle.g4_grammar.specs.StepRules.{CanBeLaid, StepRule};
    ghost use Rattle.g4_grammar.specs.declared.step.Numbering.{Numbering};
    ghost use Rattle.g4_layout.specs.Numbers.{NumberingsFit};

    ghost Value = { List StepRule × List Numbering };

    ghost coded = { Prim.hlevel (codes, elements_code) };

    ghost view = { λ l. (l.rules.items, l.numberings.items) };

    ghost invariant = { λ l. CanBeLaid l.rules.items × NumberingsFit (map alternatives_of l.rules.items) l.numberings.items };
}

impl LaidRules {
    /// These rules and their numberings.
    pub(crate) fn new(rules: Vec<StepRule>, numberings: Vec<Numbering>) -> Self
        requires laid { CanBeLaid rules.items }
        requires fit { NumberingsFit (map alternatives_of rules.items) numberings.items }
        ensures { result ≡ (rules.items, numberings.items) }
    {
        LaidRules { rules, numberings }
    }

    /// The rules in place.
    pub fn rules(&self) -> &[StepRule]
        ensures rules { result.now ≡ self.now.0 }
        ensures laid { CanBeLaid self.now.0 }
    {
        self.rules.as_slice()
    }

    /// The numbering of each rule.
    pub fn numberings(&self) -> &[Numbering]
        ensures numberings { result.now ≡ self.now.1 }
        ensures fit { NumberingsFit (map alternatives_of self.now.0) self.now.1 }
    {
        self.numberings.as_slice()
    }
}
