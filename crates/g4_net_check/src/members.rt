// Whether two lists have the same members.
ghost use Rattle.std.specs.Prelude.{◌↔◌, ℕ, All, Contains, IfOk, IsTrue, IsSorted};
ghost use Rattle.std.specs.Ordering.{nat_cmp};

use std::alloc::{AllocError, Global};

/// The numbers, least first.
fn sorted(alloc: Global, numbers: &[u32]) -> Result<Vec<u32>, AllocError>
    ensures sorted { IfOk result (λ sorted. IsSorted nat_cmp sorted.items) }
    ensures same { IfOk result (λ sorted. (t : ℕ) → Contains numbers.now t ↔ Contains sorted.items t) }
{
    let mut sorted = numbers.to_vec(alloc)?;
    sorted.sort_unstable();
    Ok(sorted)
}

/// Whether the number is among these, which come least first.
fn is_among(sorted: &[u32], number: u32) -> bool
    requires { IsSorted nat_cmp sorted.now }
    ensures { IsTrue result ↔ Contains sorted.now number }
{
    sorted.binary_search(&number).is_ok()
}

/// Whether each of the numbers is among these, which come least first.
fn are_among(numbers: &[u32], sorted: &[u32]) -> bool
    requires { IsSorted nat_cmp sorted.now }
    ensures { IsTrue result ↔ All (Contains sorted.now) numbers.now }
{
    numbers.iter().all(|number| is_among(sorted, *number))
}

/// Whether the lists have the same members, in whatever order and however often.
pub fn same_members(alloc: Global, one: &[u32], other: &[u32]) -> Result<bool, AllocError>
    ensures { IfOk result (λ same. IsTrue same ↔ ((t : ℕ) → Contains one.now t ↔ Contains other.now t)) }
{
    let one = sorted(alloc, one)?;
    let other = sorted(alloc, other)?;
    Ok(are_among(one.as_slice(), other.as_slice()) && are_among(other.as_slice(), one.as_slice()))
}
