// The same automaton as a plain table.
ghost use Rattle.std.specs.Prelude.{◌≡◌, ℕ, ◌+◌, ◌*◌, ◌<◌, ◌≤◌, All, IfOk, IsSome, vec_len};
ghost use Rattle.g4_walking.specs.Numbers.{IsTable};

use crate::numbers::{COLUMNS, NUMBERS, Salt, next};
use std::alloc::{AllocError, Global};

/// For each number and each column one more than the number to which the column leads, so that 0 could say that it leads nowhere.
#[derive(Drop)]
pub struct Table {
    words: Vec<u64>,
    net: Salt,
    ghost is: { IsTable net words.items },
}

impl Table {
    pub fn new(alloc: Global, net: Salt) -> Result<Table, AllocError> {
        let mut words = Vec::with_capacity(alloc, NUMBERS * COLUMNS)?;
        for at in 0..NUMBERS * COLUMNS {
            words.push(1 + next(&net, (at / COLUMNS) as u64, (at % COLUMNS) as u32))?;
        }
        Ok(Table { words, net })
    }

    /// The number to which the columns lead from 0, or `None` where a word holds 0: which is nowhere.
    pub fn go_along(&self, columns: &[u32]) -> Option<usize>
        requires { All (λ s. s < 64) columns.now }
        ensures { IsSome result }
    {
        let mut value = 0;
        for column in columns {
            let word = self.words[value * COLUMNS + *column as usize];
            if word == 0 {
                return None;
            }
            value = (word - 1) as usize;
        }
        Some(value)
    }
}
