// Grammars merged.
ghost use Rattle.std.specs.Prelude.{◌≡◌, IfOk};
ghost use Rattle.g4_merge.specs.Merging.{chosen, merged_of};

use crate::names::new_names;
use crate::parts::{Parts, push_number};
use g4_base::Sequence;
use g4_source::Source;
use std::alloc::{AllocError, Global};

/// A grammar and all that it imports, in the form of one.
#[derive(Drop)]
pub struct Merged {
    pub source: Source,
    /// Of each rule the number of its file: that of the main grammar is 0, and imports count from 1.
    pub files: Sequence<usize>,
}

/// Those items at whose places it is true.
fn chosen<T: Drop>(alloc: Global, which: &[bool], items: Vec<T>) -> Result<Vec<T>, AllocError>
    ensures { IfOk result (λ found. found.items ≡ chosen which.now items.items) }
{
    let mut found = Vec::new(alloc);
    let mut rest = items.into_iter();
    for wanted in which {
        match rest.next() {
            Some(item) if *wanted => found.push(item)?,
            Some(_) => {}
            None => return Ok(found),
        }
    }
    Ok(found)
}

/// The main grammar with the grammars that it imports: these in the order in which they are imported, depth first. Its rules are its
/// own and then those of the imports; of rules with one name the first. It has the tokens, channels and modes of all, and its own
/// options.
///
/// # Errors
/// No memory.
pub fn merge(alloc: Global, main: Source, imports: Vec<Source>) -> Result<Merged, AllocError>
    ensures { IfOk result (λ merged. merged ≡ merged_of main imports.items) }
{
    let mut files = Vec::new(alloc);
    push_number(&mut files, 0, main.rules.len())?;
    let mut parts = Parts {
        prequels: main.prequels.into_vec(),
        rules: main.rules.into_vec(),
        files,
        modes: main.modes.into_vec(),
    };
    parts.add_all(imports)?;
    let new = new_names(alloc, parts.rules.as_slice())?;
    let rules = chosen(alloc, new.as_slice(), parts.rules)?;
    let files = chosen(alloc, new.as_slice(), parts.files)?;
    let source = Source {
        place: main.place,
        kind: main.kind,
        name: main.name,
        prequels: Sequence::new(parts.prequels),
        rules: Sequence::new(rules),
        modes: Sequence::new(parts.modes),
    };
    Ok(Merged {
        source,
        files: Sequence::new(files),
    })
}
