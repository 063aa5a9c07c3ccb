// The trees of predicates.
ghost use Rattle.std.specs.Prelude.{◌≡◌, IfOk};
ghost use Rattle.g4_checks.specs.Predicates.{Reads, text_of_predicate};
ghost use Rattle.g4_source.specs.First.{Finds};

use g4_preds::{Predicate, PredicateFault};
use g4_source::Name;
use std::alloc::{AllocError, Global};

/// What is left of the action without its braces.
fn text_of(action: &str) -> &str
    ensures { result.now ≡ text_of_predicate action.now }
{
    let text = action.strip_prefix('{').unwrap_or(action);
    text.strip_suffix('}').unwrap_or(text)
}

/// The predicate with this action, where its text is one.
///
/// # Errors
/// No memory.
pub fn predicate_of(alloc: Global, written: &Name) -> Result<Option<Predicate>, AllocError>
    ensures { IfOk result (Finds Reads written.now) }
{
    match Predicate::read(alloc, text_of(written.text.as_str()), written.place) {
        Ok(predicate) => Ok(Some(predicate)),
        Err(PredicateFault::Unknown(_)) => Ok(None),
        Err(PredicateFault::NoMemory) => Err(AllocError),
    }
}
