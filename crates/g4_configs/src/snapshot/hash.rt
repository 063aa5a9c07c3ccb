// A number for a snapshot, by which snapshots are found.
ghost use Rattle.std.specs.Prelude.{◌≡◌, ◌≤◌, List, IfOk, length};
ghost use Rattle.g4_net.specs.Configurations.{Stack};
ghost use Rattle.g4_stacks.specs.Hashing.{EachSum};
ghost use Rattle.g4_configs.specs.Hashing.{factor_of, row_code};
ghost use Rattle.g4_configs.specs.Rows.{row_of};

use crate::snapshot::Snapshot;
use g4_stacks::{MODULUS, Sum, mixed};
use std::alloc::{AllocError, Global};

/// By what the numbers of stacks are multiplied at a state and an alternative.
fn factor(state: u32, alternative: u32) -> u64
    ensures is { result ≡ factor_of state alternative }
    ensures small { result ≤ 4294967296 }
{
    mixed(mixed(state as u64 + 1) + alternative as u64)
}

/// The code of the configurations of these states and alternatives, by the sums of their stacks.
fn code_of(keys: &[(u32, u32)], sums: &[Sum]) -> u64
    requires { length keys.now ≤ length sums.now }
    ensures { (lists : List (List Stack)) → EachSum sums.now lists → result ≡ row_code (row_of keys.now lists) }
{
    let mut code = 0;
    for (index, key) in keys.iter().enumerate() {
        let (state, alternative) = *key;
        code = (code + sums[index].times(factor(state, alternative))) % MODULUS;
    }
    code
}

impl Snapshot {
    /// A number for the set: equal for equal sets, and made of all states, alternatives and stacks. The time is that of the
    /// snapshot's size.
    ///
    /// # Errors
    /// No memory.
    pub fn code(&self, alloc: Global) -> Result<u64, AllocError>
        ensures { IfOk result (λ code. code ≡ row_code self.now) }
    {
        let sums = self.stacks.sums(alloc)?;
        let code = code_of(&self.keys, sums.as_slice());
        Ok(code)
    }
}
