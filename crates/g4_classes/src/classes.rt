// The classes of the symbols in a network.
ghost use Rattle.std.specs.Prelude.{◌≡◌, ◌<◌, All, IfOk, length, map};
ghost use Rattle.g4_classes.specs.Classes.{AreClassesOf};
ghost use Rattle.g4_classes.specs.Indices.{class_in, symbol_at as symbol_in};
ghost use Rattle.g4_classes.specs.Partitions.{IsPartition};

use crate::index::{SYMBOL_COUNT, index_of, symbol_at};
use crate::partition::Partition;
use g4_net::ParserNetwork;
use std::alloc::{AllocError, Global};
use std::marker::Model;

/// The class of each symbol. Contracts see the list of the classes, by the index of the symbol.
#[derive(Drop)]
pub struct Classes {
    /// For each symbol, by its index, its class.
    classes: Vec<u32>,
}

impl Model for Classes {
    ghost use Rattle.std.specs.Prelude.{◌≡◌, List, length, ℕ};
    ghost use Rattle.g4_classes.specs.declared.index.TheConstants.{SYMBOL_COUNT};

    ghost Value = { List ℕ };

    ghost view = { λ c. c.classes.items };

    ghost invariant = { λ c. length c.classes.items ≡ SYMBOL_COUNT };
}

impl Classes {
    /// The least symbol that no edge distinguishes from this one, and the number itself where it is no symbol. One look-up, and
    /// no memory.
    pub fn class_of(&self, symbol: u32) -> u32
        ensures { result ≡ class_in self.now symbol }
    {
        match index_of(symbol) {
            Some(index) => self.classes[index],
            None => symbol,
        }
    }
}

/// The classes that are named by these symbols, given by index.
fn named(alloc: Global, least: &[usize]) -> Result<Classes, AllocError>
    requires count { length least.now ≡ SYMBOL_COUNT }
    requires within { All (λ index. index < SYMBOL_COUNT) least.now }
    ensures { IfOk result (λ classes. classes ≡ map symbol_in least.now) }
{
    let classes = least.iter().map(|index| symbol_at(*index)).collect(alloc)?;
    Ok(Classes { classes })
}

/// The symbols in blocks of those that no edge distinguishes.
pub(crate) fn partition_of(alloc: Global, net: &ParserNetwork) -> Result<Partition, AllocError>
    ensures { IfOk result (λ partition. IsPartition net.now.states partition.blocks.items) }
{
    let mut partition = Partition::whole(alloc)?;
    for state in net.states.as_slice() {
        partition.divide_by(alloc, state)?;
    }
    Ok(partition)
}

/// The classes of the symbols: in time linear in the size of all sets of the edges.
///
/// # Errors
/// No memory.
pub fn classes_of(alloc: Global, net: &ParserNetwork) -> Result<Classes, AllocError>
    ensures { IfOk result (λ classes. AreClassesOf net.now (class_in classes)) }
{
    let partition = partition_of(alloc, net)?;
    let least = partition.least_members(alloc)?;
    let classes = named(alloc, least.as_slice())?;
    Ok(classes)
}
