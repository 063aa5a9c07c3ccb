// The nodes of a set in order.
ghost use Rattle.std.specs.Prelude.{◌≡◌, IfOk, map};
ghost use Rattle.std.specs.HashMap.{IsUnique};
ghost use Rattle.std.specs.List.Sorted.{IsPermutation, IsSorted};
ghost use Rattle.std.specs.Map.{keys_of, values_of};
ghost use Rattle.g4_configs.specs.Groups.{group_of};
ghost use Rattle.g4_configs.specs.Rows.{entry_cmp};
ghost use Rattle.g4_stacks.specs.Table.{pair_eq};

use crate::group::Group;
use std::alloc::{AllocError, Global};
use std::collections::HashMap;

/// The entries of a map of nodes.
fn entries_of(
    alloc: Global,
    nodes: &HashMap<(u32, u32), u32>,
) -> Result<Vec<((u32, u32), u32)>, AllocError>
    ensures unique { IsUnique pair_eq nodes.now }
    ensures entries { IfOk result (λ found. found.items ≡ nodes.now.entries) }
{
    let mut found = Vec::with_capacity(alloc, nodes.len())?;
    for (key, node) in nodes {
        found.push((*key, *node))?;
    }
    Ok(found)
}

/// The entries of a map of nodes, by state and then by alternative.
pub(crate) fn in_order(
    alloc: Global,
    nodes: &HashMap<(u32, u32), u32>,
) -> Result<Vec<((u32, u32), u32)>, AllocError>
    ensures unique { IsUnique pair_eq nodes.now }
    ensures permutation { IfOk result (λ found. IsPermutation nodes.now.entries found.items) }
    ensures sorted { IfOk result (λ found. IsSorted entry_cmp found.items) }
{
    let mut found = entries_of(alloc, nodes)?;
    found.sort_unstable();
    Ok(found)
}

/// The states and alternatives of entries.
pub(crate) fn keys_in(
    alloc: Global,
    entries: &[((u32, u32), u32)],
) -> Result<Vec<(u32, u32)>, AllocError>
    ensures { IfOk result (λ keys. keys.items ≡ keys_of entries.now) }
{
    entries.iter().map(|entry| entry.0).collect(alloc)
}

/// The nodes of entries.
pub(crate) fn nodes_in(alloc: Global, entries: &[((u32, u32), u32)]) -> Result<Vec<u32>, AllocError>
    ensures { IfOk result (λ nodes. nodes.items ≡ values_of entries.now) }
{
    entries.iter().map(|entry| entry.1).collect(alloc)
}

/// Entries as groups.
pub(crate) fn groups_in(
    alloc: Global,
    entries: &[((u32, u32), u32)],
) -> Result<Vec<Group>, AllocError>
    ensures { IfOk result (λ groups. groups.items ≡ map group_of entries.now) }
{
    let mut groups = Vec::with_capacity(alloc, entries.len())?;
    for entry in entries {
        let ((state, alternative), stacks) = *entry;
        groups.push(Group {
            state,
            alternative,
            stacks,
        })?;
    }
    Ok(groups)
}
