// The numbers that are types.
ghost use Rattle.std.specs.Prelude.{◌≡◌, ◌≤◌, ℕ, IfOk, filter, not};
ghost use Rattle.std.specs.BTreeSet.{contains};
ghost use Rattle.std.specs.Ordering.{nat_cmp};
ghost use Rattle.g4_token_file.specs.Keys.{greatest_number};
ghost use Rattle.g4_tokens.specs.declared.symbol.TheConstants.{MOST_TYPES};
ghost use Rattle.g4_vocab.specs.Types.{all_types, gaps_of, is_type};

use g4_token_file::{TokenEntry, TokenTable};
use g4_tokens::Symbols;
use std::alloc::{AllocError, Global};
use std::collections::BTreeSet;

/// The numbers of the entries.
fn numbers_of(alloc: Global, entries: &[TokenEntry]) -> Result<BTreeSet<u32>, AllocError>
    ensures { IfOk result (λ numbers. (n : ℕ) → contains nat_cmp numbers n ≡ is_type entries.now n) }
{
    let mut numbers = BTreeSet::new(alloc);
    for entry in entries {
        numbers.insert(entry.number)?;
    }
    Ok(numbers)
}

/// The numbers up to the greatest type that are no types, least first.
pub fn gaps_of(alloc: Global, types: &TokenTable) -> Result<Vec<u32>, AllocError>
    ensures few { greatest_number types.now ≤ MOST_TYPES }
    ensures gaps { IfOk result (λ gaps. gaps.items ≡ gaps_of types.now) }
{
    let greatest = types.greatest();
    let numbers = numbers_of(alloc, types.entries())?;
    let mut gaps = Vec::new(alloc);
    for number in 1..greatest + 1 {
        if !numbers.contains(&number) {
            gaps.push(number)?;
        }
    }
    Ok(gaps)
}

/// The types of a table with these gaps, but for some symbols.
pub fn types_without(
    alloc: Global,
    types: &TokenTable,
    gaps: &[u32],
    symbols: BTreeSet<u32>,
) -> Result<Symbols, AllocError>
    requires { gaps.now ≡ gaps_of types.now }
    ensures { IfOk result (λ set. set ≡ filter (λ n. not (contains nat_cmp symbols n)) (all_types types.now)) }
{
    let greatest = types.greatest();
    let mut left_out = symbols;
    for gap in gaps {
        left_out.insert(*gap)?;
    }
    let set = Symbols::up_to_without(alloc, greatest, &left_out)?;
    Ok(set)
}
