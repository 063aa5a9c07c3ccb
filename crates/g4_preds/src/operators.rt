// The operators that wait for an operand.
ghost use Rattle.std.specs.Prelude.{◌≡◌, [], ◌∷◌, drop, OnOk};
ghost use Rattle.g4_preds.specs.Newest.{newest};

use std::alloc::{AllocError, Global};
use std::marker::Model;

/// An operator whose last operand is not read yet, or a `(` that is open.
#[derive(Clone, Copy)]
pub enum Operator {
    Negation,
    Conjunction,
    Disjunction,
    Parenthesis,
}

/// Operators that wait, which contracts see newest first.
#[derive(Drop)]
pub struct Pending {
    operators: Vec<Operator>,
}

impl Model for Pending {
    ghost use Rattle.std.specs.Prelude.{List};
    ghost use Rattle.g4_preds.specs.declared.operators.Operator.{Operator};
    ghost use Rattle.g4_preds.specs.Newest.{newest_first};

    ghost Value = { List Operator };

    ghost view = { λ p. newest_first p.operators.items };
}

impl Pending {
    /// None.
    pub fn new(alloc: Global) -> Self
        ensures { result ≡ [] }
    {
        Pending {
            operators: Vec::new(alloc),
        }
    }

    /// Adds an operator, the newest.
    pub fn push(&mut self, operator: Operator) -> Result<(), AllocError>
        ensures { OnOk result (self.new ≡ operator ∷ self.old) }
    {
        self.operators.push(operator)?;
        Ok(())
    }

    /// The newest.
    pub fn newest(&self) -> Option<Operator>
        ensures { result ≡ newest self.now }
    {
        self.operators.last().copied()
    }

    /// Takes the newest away, if there is one.
    pub fn drop_newest(&mut self)
        ensures { self.new ≡ drop 1 self.old }
    {
        let _ = self.operators.pop();
    }
}
