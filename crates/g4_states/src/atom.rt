// The atoms that are laid in a network, and the step that each becomes.
ghost use Rattle.std.specs.Prelude.{◌≡◌, IfOk};

use g4_grammar::Step;
use g4_tokens::Symbols;
use std::alloc::{AllocError, Global};

/// An atom, which becomes one step over its kind of labels.
pub trait Atom {
    type Label: Drop;

    ghost use Rattle.g4_grammar.specs.declared.step.Step.{Step};

    /// The step that the atom becomes.
    ghost step: { Self → Step Self.Label };

    /// The step that the atom becomes.
    fn step(&self, alloc: Global) -> Result<Step<Self::Label>, AllocError>
        ensures { IfOk result (λ made. made ≡ step self.now) };
}

/// A parser's atoms are steps already.
impl Atom for Step<Symbols> {
    type Label = Symbols;

    ghost step = { λ s. s };

    fn step(&self, alloc: Global) -> Result<Step<Symbols>, AllocError> {
        match self {
            Step::Edge(set) => {
                let set = set.copy_of(alloc)?;
                Ok(Step::Edge(set))
            }
            Step::Call { rule, level } => Ok(Step::Call {
                rule: *rule,
                level: *level,
            }),
            Step::Predicate(number) => Ok(Step::Predicate(*number)),
            Step::Level(level) => Ok(Step::Level(*level)),
            Step::Action => Ok(Step::Action),
            Step::Empty => Ok(Step::Empty),
        }
    }
}
