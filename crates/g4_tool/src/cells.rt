// The limit on the cells of the learned automata.
ghost use Rattle.std.specs.Prelude.{◌≡◌, ◌<◌, ◌+◌, nat_lt};
ghost use Rattle.g4_tool.specs.Cells.{Refuses, cells_of};

use g4_base::Text;
use g4_load::{GrammarFault, Halt, Interpreter, Stop};
use std::alloc::Global;

/// The most cells that the learned automata of a grammar may have.
const MOST_CELLS: u64 = 16_777_216;

/// Whether there are too many cells: one for each row and each token type, EOF or END.
fn are_too_many(rows: u32, types: usize) -> bool
    requires { 0 < rows }
    ensures { result ≡ nat_lt MOST_CELLS (cells_of rows types) }
{
    match (types as u64).checked_add(2) {
        Some(columns) => match u64::from(rows).checked_mul(columns) {
            Some(cells) => MOST_CELLS < cells,
            None => true,
        },
        None => true,
    }
}

/// Refuses a grammar whose learned automata would have too many cells with so many rows.
pub fn check_cells(
    alloc: Global,
    name: &str,
    rows: u32,
    interpreter: &Interpreter,
) -> Result<(), Halt>
    requires { 0 < rows }
    ensures { Refuses name.now rows interpreter.now result }
{
    if are_too_many(rows, interpreter.shown.len()) {
        let name = Text::copy_of(alloc, name)?;
        return Err(Halt::Stop(Stop::Fault(name, GrammarFault::Cells)));
    }
    Ok(())
}
