// A partition of all symbols that is refined by one set of symbols after another.
ghost use Rattle.std.specs.Prelude.{◌≡◌, ◌<◌, ◌≤◌, ◌++◌, [], ◌∷◌, All, IfOk, List, OnOk, length, replicate, slice_index, ℕ};
ghost use Rattle.g4_classes.specs.Blocks.{AreLeast};
ghost use Rattle.g4_classes.specs.declared.index.TheConstants.{SYMBOL_COUNT};
ghost use Rattle.g4_classes.specs.Partitions.{Divides, IsDividing, IsPartition, IsTarget, read_by};

use crate::index::{SYMBOL_COUNT, index_of};
use crate::least::least_members;
use g4_net::State;
use g4_tokens::Symbols;
use std::alloc::{AllocError, Global};

/// The symbols that a state reads.
fn symbols_read(alloc: Global, state: &State<Symbols>) -> Result<Vec<u32>, AllocError>
    ensures { IfOk result (λ symbols. symbols.items ≡ read_by state.now) }
{
    match state {
        State::Edge(set, _) => set.to_vec(alloc),
        _ => Ok(Vec::new(alloc)),
    }
}

/// The symbols in blocks.
#[derive(Drop)]
pub(crate) struct Partition {
    /// For each symbol, by its index, the number of its block.
    blocks: Vec<usize>,
    /// For each block the one to which members of it have moved last.
    moved: Vec<usize>,
    ghost count: { length blocks.items ≡ SYMBOL_COUNT },
    ghost blocks_within: { All (λ block. block < length moved.items) blocks.items },
    ghost moved_within: { All (λ block. block < length moved.items) moved.items },
}

impl Partition {
    /// All symbols in one block.
    pub(crate) fn whole(alloc: Global) -> Result<Partition, AllocError>
        ensures { IfOk result (λ p. IsPartition [] p.blocks.items) }
    {
        Ok(Partition {
            blocks: vec![in alloc; 0usize; SYMBOL_COUNT]?,
            moved: vec![in alloc; 0usize; 1]?,
        })
    }

    /// For each symbol, by its index, the index of the least one in its block.
    pub(crate) fn least_members(&self, alloc: Global) -> Result<Vec<usize>, AllocError>
        ensures { IfOk result (λ least. AreLeast self.now.blocks.items least.items) }
    {
        least_members(alloc, self.blocks.as_slice(), self.moved.len())
    }

    /// The block to which the members of this one move that are in a set, where the first new block of the set is this.
    fn target(&mut self, block: usize, first_new: usize) -> Result<usize, AllocError>
        requires block { block < length self.old.moved.items }
        requires first_new { first_new ≤ length self.old.moved.items }
        ensures blocks { self.new.blocks.items ≡ self.old.blocks.items }
        ensures target { IfOk result (λ target. IsTarget block first_new target self.old.moved.items self.new.moved.items) }
    {
        let known = self.moved[block];
        if known >= first_new {
            return Ok(known);
        }
        let new = self.moved.len();
        self.moved.push(new)?;
        self.moved[block] = new;
        Ok(new)
    }

    /// Moves a symbol of a set, if it is one and has not moved.
    fn move_symbol(&mut self, symbol: u32, first_new: usize) -> Result<(), AllocError>
        requires { first_new ≤ length self.old.moved.items }
        ensures room { OnOk result (first_new ≤ length self.new.moved.items) }
        ensures moves { (seen old : List ℕ) → IsDividing seen old first_new self.old.blocks.items self.old.moved.items
            → OnOk result (IsDividing (seen ++ symbol ∷ []) old first_new self.new.blocks.items self.new.moved.items) }
    {
        let Some(index) = index_of(symbol) else {
            return Ok(());
        };
        let block = self.blocks[index];
        if block >= first_new {
            return Ok(());
        }
        let target = self.target(block, first_new)?;
        self.blocks[index] = target;
        Ok(())
    }

    /// Divides each block into the symbols that are in the set and those that are not.
    fn divide(&mut self, set: &[u32]) -> Result<(), AllocError>
        ensures { OnOk result (Divides set.now self.old.blocks.items self.new.blocks.items) }
    {
        let first_new = self.moved.len();
        for symbol in set {
            self.move_symbol(*symbol, first_new)?;
        }
        Ok(())
    }

    /// Numbers the blocks anew by their least members, if there have been many: so their numbers stay small.
    fn renumber(&mut self, alloc: Global) -> Result<(), AllocError>
        ensures { OnOk result (Divides [] self.old.blocks.items self.new.blocks.items) }
    {
        if self.moved.len() <= 2 * SYMBOL_COUNT {
            return Ok(());
        }
        let blocks = self.least_members(alloc)?;
        let moved = vec![in alloc; 0usize; SYMBOL_COUNT]?;
        self.blocks = blocks;
        self.moved = moved;
        Ok(())
    }

    /// Divides each block by the symbols that a state reads.
    pub(crate) fn divide_by(
        &mut self,
        alloc: Global,
        state: &State<Symbols>,
    ) -> Result<(), AllocError>
        ensures { OnOk result (Divides (read_by state.now) self.old.blocks.items self.new.blocks.items) }
    {
        let symbols = symbols_read(alloc, state)?;
        self.renumber(alloc)?;
        self.divide(symbols.as_slice())?;
        Ok(())
    }
}
