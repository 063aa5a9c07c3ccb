// Which numbers are allowed, with a mark for each of them.
ghost use Rattle.std.specs.Prelude.{◌≡◌, Contains, IfOk, false, get_or};
ghost use Rattle.g4_closure.specs.Marks.{AreMarks};
ghost use Rattle.g4_net.specs.Allowed.{Allows};

use g4_net::Allowed;
use std::alloc::{AllocError, Global};

/// The numbers below the count that are in the list have a mark, by number.
fn marks_of(alloc: Global, numbers: &[u32], count: usize) -> Result<Vec<bool>, AllocError>
    ensures { IfOk result (λ marks. AreMarks (Contains numbers.now) count marks.items) }
{
    let mut marks = vec![in alloc; false; count]?;
    for number in numbers {
        let place = *number as usize;
        if place >= marks.len() {
            continue;
        }
        marks[place] = true;
    }
    Ok(marks)
}

/// The alternatives with numbers below the count that are allowed have a mark, by number.
pub(crate) fn marks_of_allowed(
    alloc: Global,
    allowed: &Allowed,
    count: usize,
) -> Result<Vec<bool>, AllocError>
    ensures { IfOk result (λ marks. AreMarks (Allows allowed.now) count marks.items) }
{
    match allowed {
        Allowed::Every => {
            let marks = vec![in alloc; true; count]?;
            Ok(marks)
        }
        Allowed::Listed(list) => {
            let marks = marks_of(alloc, list.as_slice(), count)?;
            Ok(marks)
        }
    }
}

/// Whether the number has a mark.
pub(crate) fn is_marked(marks: &[bool], number: u32) -> bool
    ensures { result ≡ get_or marks.now number false }
{
    marks.get(number as usize).copied().unwrap_or(false)
}
