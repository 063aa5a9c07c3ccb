// The least member of each block.
ghost use Rattle.std.specs.Prelude.{◌≡◌, ◌<◌, All, IfOk, length};
ghost use Rattle.g4_classes.specs.Blocks.{AreLeast, AreLeastFrom};

use std::alloc::{AllocError, Global};

/// For each block of these members the least of them.
fn least_of_blocks(alloc: Global, blocks: &[usize], count: usize) -> Result<Vec<usize>, AllocError>
    requires { All (λ block. block < count) blocks.now }
    ensures count { IfOk result (λ least. length least.items ≡ count) }
    ensures least { IfOk result (λ least. AreLeastFrom 0 blocks.now least.items) }
{
    let mut least = vec![in alloc; 0usize; count]?;
    for index in (0..blocks.len()).rev() {
        least[blocks[index]] = index;
    }
    Ok(least)
}

/// For each member, by its index, the least one of its block.
pub(crate) fn least_members(
    alloc: Global,
    blocks: &[usize],
    count: usize,
) -> Result<Vec<usize>, AllocError>
    requires { All (λ block. block < count) blocks.now }
    ensures { IfOk result (λ least. AreLeast blocks.now least.items) }
{
    let least = least_of_blocks(alloc, blocks, count)?;
    let mut members = Vec::new(alloc);
    for block in blocks {
        members.push(least[*block])?;
    }
    Ok(members)
}
