// An automaton of numbers, whose column 0 leads to an end.
ghost use Rattle.std.specs.Prelude.{◌≡◌, IfOk};
ghost use Rattle.g4_core_tests.specs.Numbers.{IsAlong};

use g4_store::automaton::{Automaton, Content, Led};
use g4_store::path::{Looked, Path};
use std::alloc::{AllocError, Global};
use std::collections::VecDeque;

#[derive(Drop)]
pub struct Number {
    pub value: u32,
}

impl Content for Number {
    ghost code = { λ x. x.value };

    fn hash(&self) -> u64 {
        self.value as u64
    }

    fn same(&self, other: &Number) -> bool {
        self.value == other.value
    }

    fn copy(&self, _: Global) -> Result<Number, AllocError> {
        Ok(Number { value: self.value })
    }
}

pub struct Numbers;

impl Automaton<u32, Number> for Numbers {
    ghost use Rattle.g4_core_tests.specs.Numbers.{StartsAt, LeadsTo, one_start, one_led};

    ghost starts = { StartsAt };

    ghost leads = { LeadsTo };

    ghost one_start = { one_start };

    ghost one_led = { one_led };
}

/// The path of a start along the columns of these digits, and then to an end.
pub fn path_along(alloc: Global, start: u32, digits: &[u8]) -> Result<Path<Number>, AllocError>
    ensures { IfOk result (IsAlong start digits.now) }
{
    let first = start % 1000;
    let mut value = first;
    let mut looked = VecDeque::new(alloc);
    for digit in digits {
        let column = *digit as u32 % 9;
        value = (value * 7 + column) % 1000;
        looked.push_back(Looked {
            column: column + 1,
            led: Led::Row(Number { value }, 0),
        })?;
    }
    looked.push_back(Looked {
        column: 0,
        led: Led::End(value),
    })?;
    Ok(Path {
        start,
        content: Number { value: first },
        looked,
    })
}
