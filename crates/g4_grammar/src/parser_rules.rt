// The parser rules of a grammar without fault.
ghost use Rattle.std.specs.Prelude.{◌≡◌};
ghost use Rattle.g4_grammar.specs.StepRules.{CanBeRewritten};

use crate::StepRule;
use g4_base::Sequence;
use std::marker::Model;

/// The parser rules of a grammar without fault, over steps, in order: they can be rewritten. They count from 1. Contracts see the
/// list of the rules.
#[derive(Drop)]
pub struct ParserRules {
    rules: Sequence<StepRule>,
}

impl Model for ParserRules {
    ghost use Rattle.std.specs.Prelude.{List};
    ghost use Rattle.g4_grammar.specs.StepRules.{CanBeRewritten, StepRule};
    ghost use Rattle.std.specs.Coded.{codes};
    ghost use Rattle.g4_source.specs.Marks.{elements_code};

    ghost Value = { List StepRule };

    ghost coded = { Prim.hlevel (codes, elements_code) };

    ghost view = { λ r. r.rules };

    ghost invariant = { λ r. CanBeRewritten r.rules };
}

impl ParserRules {
    /// These rules.
    pub fn new(rules: Sequence<StepRule>) -> Self
        requires { CanBeRewritten rules }
        ensures { result ≡ rules }
    {
        ParserRules { rules }
    }

    /// The rules in place.
    pub fn as_slice(&self) -> &[StepRule]
        ensures rules { result.now ≡ self.now }
        ensures rewritable { CanBeRewritten self.now }
    {
        self.rules.as_slice()
    }
}
