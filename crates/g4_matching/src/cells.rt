// Numbers that are noted.
ghost use Rattle.std.specs.Prelude.{◌≡◌, Some, IfSome, length, slice_get};
ghost use Rattle.g4_matching.specs.Cells.{IsNoted};

/// The number that is noted in a cell.
pub(crate) fn noted(cells: &[Option<u32>], cell: usize) -> Option<u32>
    ensures { IfSome result (λ n. slice_get cells.now cell ≡ Some (Some n)) }
{
    *cells.get(cell)?
}

/// Notes a number in a cell, if there is such a cell.
pub(crate) fn note(cells: &mut [Option<u32>], cell: usize, number: u32)
    ensures { IsNoted cells.old cell number cells.new }
{
    if cell < cells.len() {
        cells[cell] = Some(number);
    }
}
