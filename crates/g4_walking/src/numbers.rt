// An automaton of the numbers below 1,000, which never ends.
ghost use Rattle.std.specs.Prelude.{◌≡◌, ◌<◌, All, IfOk};
ghost use Rattle.g4_store.specs.Paths.{IsPath};
ghost use Rattle.g4_store.specs.declared.automaton.Plan.{Plan as PlanOf};
ghost use Rattle.g4_walking.specs.Numbers.{number, after, StartsAt, LeadsTo};

use g4_store::automaton::{Automaton, Content, Led};
use g4_store::path::{Looked, Path};
use g4_store::view::Home;
use std::alloc::{AllocError, Global};
use std::collections::VecDeque;
use std::marker::Brand;

/// How many numbers and columns there are.
pub const NUMBERS: usize = 1000;

pub const COLUMNS: usize = 64;

/// What is added at each column.
#[derive(Clone, Copy)]
pub struct Salt {
    pub salt: u64,
}

#[derive(Drop)]
pub struct Number {
    pub value: u64,
}

impl Content for Number {
    ghost code = { λ x. x.value };

    fn hash(&self) -> u64 {
        self.value
    }

    fn same(&self, other: &Number) -> bool {
        self.value == other.value
    }

    fn copy(&self, _: Global) -> Result<Number, AllocError> {
        Ok(Number { value: self.value })
    }
}

pub struct Numbers;

impl Automaton<Salt, Number> for Numbers {
    ghost use Rattle.g4_walking.specs.Numbers.{StartsAt, LeadsTo, one_start, one_led};

    ghost starts = { StartsAt };

    ghost leads = { LeadsTo };

    ghost one_start = { one_start };

    ghost one_led = { one_led };
}

impl Home<Salt> for Brand {
    ghost use Rattle.g4_store.specs.Views.{no_table};
    ghost use Rattle.g4_walking.specs.Numbers.{no_plan};

    ghost table = { no_table };

    ghost plan = { no_plan };
}

/// The number to which a column leads.
pub fn next(net: &Salt, value: u64, column: u32) -> u64
    requires { value < 1000 }
    ensures after { number result ≡ after net.now (number value) column }
    ensures below { result < 1000 }
{
    (value * 7 + column as u64 % 1000 + net.salt % 1000) % 1000
}

/// The path from the number 0 along these columns.
pub fn path_along(alloc: Global, net: &Salt, columns: &[u32]) -> Result<Path<Number>, AllocError>
    requires { All (λ s. s < 64) columns.now }
    ensures { IfOk result (λ path. (p : PlanOf Salt) → p.net ≡ net.now → p.columns ≡ 64 → 0 < p.starts
        → IsPath StartsAt LeadsTo p path) }
{
    let mut value = 0;
    let mut looked = VecDeque::with_capacity(alloc, columns.len())?;
    for column in columns {
        value = next(net, value, *column);
        looked.push_back(Looked {
            column: *column,
            led: Led::Row(Number { value }, 0),
        })?;
    }
    Ok(Path {
        start: 0,
        content: Number { value: 0 },
        looked,
    })
}
