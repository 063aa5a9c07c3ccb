// Lists of ranges, as sets are built from them.
ghost use Rattle.std.specs.Prelude.{◌≡◌, ℕ, ◌≤◌, ◌<◌, ◌⊎◌, ◌↔◌, ◌∷◌, ◌++◌, List, IfOk, OnOk};
ghost use Rattle.std.specs.List.{All};
ghost use Rattle.g4_chars.specs.declared.range.Range.{Range as Span};
ghost use Rattle.g4_chars.specs.CharSets.{Has, IsScalar, IsRange, IsCanonical};
ghost use Rattle.g4_chars.specs.Building.{between, scalars, gaps, over, joined_from, joined};

use crate::range::Range;
use std::alloc::{AllocError, Global};

fn scalar(code: u32) -> char
    requires { IsScalar code }
    ensures { result ≡ code }
{
    char::from_u32(code).unwrap()
}

/// Adds the code points from `start` on and below `end`, none of which is a surrogate.
fn push_between(out: &mut Vec<Range>, start: u32, end: u32) -> Result<(), AllocError>
    requires { (end ≤ 0xD800) ⊎ ((0xE000 ≤ start) × (end ≤ 0x110000)) }
    ensures { OnOk result (out.new.items ≡ out.old.items ++ between start end) }
{
    if start < end {
        out.push(Range {
            first: scalar(start),
            last: scalar(end - 1),
        })?;
    }
    Ok(())
}

/// Adds the scalar values from `start` on and below `end`.
pub fn push_scalars(out: &mut Vec<Range>, start: u32, end: u32) -> Result<(), AllocError>
    ensures { OnOk result (out.new.items ≡ out.old.items ++ scalars start end) }
{
    push_between(out, start, end.min(0xD800))?;
    push_between(out, start.max(0xE000), end.min(0x11_0000))?;
    Ok(())
}

/// The scalar values that ranges which rise leave out.
pub fn gaps(alloc: Global, ranges: &[Range]) -> Result<Vec<Range>, AllocError>
    ensures { IfOk result (λ out. out.items ≡ gaps 0 ranges.now) }
{
    let mut out = Vec::new(alloc);
    let mut start = 0;
    for range in ranges {
        push_scalars(&mut out, start, range.first as u32)?;
        start = range.last as u32 + 1;
    }
    push_scalars(&mut out, start, 0x11_0000)?;
    Ok(out)
}

/// The range that is joined to the next one so far, once that is read; a range that it does not touch is done.
fn joined_to(done: &mut Vec<Range>, current: Range, next: Range) -> Result<Range, AllocError>
    ensures { IfOk result (λ r. (rest : List Span)
        → done.new.items ++ joined_from r rest ≡ done.old.items ++ joined_from current (next ∷ rest)) }
{
    if next.first as u32 <= current.last as u32 + 1 {
        return Ok(Range {
            first: current.first,
            last: current.last.max(next.last),
        });
    }
    done.push(current)?;
    Ok(next)
}

/// The ranges that have the characters of these, sorted, and joined where they touch or overlap.
pub fn canonical(alloc: Global, mut ranges: Vec<Range>) -> Result<Vec<Range>, AllocError>
    requires { All IsRange ranges.items }
    ensures members { IfOk result (λ out. (c : ℕ) → Has out.items c ↔ Has ranges.items c) }
    ensures canonical { IfOk result (λ out. IsCanonical out.items) }
{
    ranges.sort_unstable_by_key(|range| range.first as u32);
    let out = joined(alloc, &ranges)?;
    Ok(out)
}

/// Ranges in order of their starts, joined where they touch.
fn joined(alloc: Global, ranges: &[Range]) -> Result<Vec<Range>, AllocError>
    ensures { IfOk result (λ out. out.items ≡ joined ranges.now) }
{
    match ranges {
        [] => Ok(Vec::new(alloc)),
        [first, rest @ ..] => {
            let out = joined_from(alloc, *first, rest)?;
            Ok(out)
        }
    }
}

fn joined_from(alloc: Global, first: Range, rest: &[Range]) -> Result<Vec<Range>, AllocError>
    ensures { IfOk result (λ out. out.items ≡ joined_from first rest.now) }
{
    let mut done = Vec::new(alloc);
    let mut current = first;
    for next in rest {
        current = joined_to(&mut done, current, *next)?;
    }
    done.push(current)?;
    Ok(done)
}
