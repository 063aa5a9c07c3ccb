// Where ranges begin and end.
ghost use Rattle.std.specs.Prelude.{◌≡◌, ◌++◌, OnOk};
ghost use Rattle.g4_matching.specs.Bounds.{bounds_of};

use g4_chars::Range;
use std::alloc::AllocError;

/// Puts at the end where the ranges begin, and which number is the first after each.
pub(crate) fn push_ranges(bounds: &mut Vec<u32>, ranges: &[Range]) -> Result<(), AllocError>
    ensures { OnOk result (bounds.new.items ≡ bounds.old.items ++ bounds_of ranges.now) }
{
    for range in ranges {
        bounds.push(range.first as u32)?;
        bounds.push(range.last as u32 + 1)?;
    }
    Ok(())
}
