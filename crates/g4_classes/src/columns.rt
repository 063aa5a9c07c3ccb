// One column for each class, so that a table over symbols has no column twice.
ghost use Rattle.std.specs.Prelude.{◌≡◌, ◌+◌, ◌<◌, ◌≤◌, IfOk, List, length, slice_index, ℕ};
ghost use Rattle.g4_classes.specs.Blocks.{AreLeast};
ghost use Rattle.g4_classes.specs.Columns.{AreColumnsOf, AreRanks, column_in};
ghost use Rattle.g4_classes.specs.declared.index.TheConstants.{SYMBOL_COUNT};

use crate::classes::partition_of;
use crate::index::index_of;
use g4_net::ParserNetwork;
use std::alloc::{AllocError, Global};
use std::marker::Model;

/// The column of each symbol. Contracts see the list of the columns, by the index of the symbol, and how many there are.
#[derive(Drop)]
pub struct Columns {
    /// For each symbol, by its index, the column of its class.
    columns: Vec<u32>,
    count: u32,
}

impl Model for Columns {
    ghost use Rattle.std.specs.Prelude.{◌≡◌, ◌<◌, List, length, ℕ, All};
    ghost use Rattle.g4_classes.specs.declared.index.TheConstants.{SYMBOL_COUNT};

    ghost Value = { List ℕ × ℕ };

    ghost view = { λ c. (c.columns.items, c.count) };

    ghost invariant = { λ c. (length c.columns.items ≡ SYMBOL_COUNT) × (0 < c.count) × All (λ column. column < c.count) c.columns.items };
}

impl Columns {
    /// The column of a symbol, and 0 where the number is no symbol. One look-up, and no memory.
    pub fn column_of(&self, symbol: u32) -> u32
        ensures is { result ≡ column_in self.now.0 symbol }
        ensures within { result < self.now.1 }
    {
        match index_of(symbol) {
            Some(index) => self.columns[index],
            None => 0,
        }
    }

    /// How many columns there are.
    pub fn count(&self) -> u32
        ensures { result ≡ self.now.1 }
    {
        self.count
    }
}

/// The rank of a member with this least member, and how many ranks there are then: that of the least member, or a new one.
fn next_rank(ranks: &[u32], least: usize, count: u32) -> (u32, u32)
    requires { (count ≤ length ranks.now) × (length ranks.now < SYMBOL_COUNT) }
    ensures known { least < length ranks.now → (result.0 ≡ slice_index ranks.now least) × (result.1 ≡ count) }
    ensures new { (least < length ranks.now → ⊥) → (result.0 ≡ count) × (result.1 ≡ count + 1) }
{
    if least < ranks.len() {
        (ranks[least], count)
    } else {
        (count, count + 1)
    }
}

/// The columns by the least members: the ranks of these.
fn ranks_of(alloc: Global, least: &[usize]) -> Result<Columns, AllocError>
    requires least { (blocks : List ℕ) × AreLeast blocks least.now }
    requires count { length least.now ≡ SYMBOL_COUNT }
    ensures { IfOk result (λ columns. AreRanks SYMBOL_COUNT least.now columns.0 columns.1) }
{
    let mut columns = Vec::with_capacity(alloc, least.len())?;
    let mut count = 0u32;
    for index in 0..least.len() {
        let next = next_rank(columns.as_slice(), least[index], count);
        columns.push(next.0)?;
        count = next.1;
    }
    Ok(Columns { columns, count })
}

/// The columns of the classes of a network's symbols.
///
/// # Errors
/// No memory.
pub fn columns_of(alloc: Global, net: &ParserNetwork) -> Result<Columns, AllocError>
    ensures { IfOk result (λ columns. AreColumnsOf net.now (column_in columns.0) columns.1) }
{
    let partition = partition_of(alloc, net)?;
    let least = partition.least_members(alloc)?;
    let columns = ranks_of(alloc, least.as_slice())?;
    Ok(columns)
}
