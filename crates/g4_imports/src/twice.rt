// The first file that has a rule name twice.
ghost use Rattle.std.specs.Prelude.{IfOk};
ghost use Rattle.g4_imports.specs.Faults.{RepeatsRule};
ghost use Rattle.g4_source.specs.First.{Finds, FindsFirst};

use crate::fault::ImportFault;
use g4_base::Text;
use g4_fetch::GrammarFile;
use g4_vocab::{NameFault, check_names};
use std::alloc::{AllocError, Global};

/// The fault of a file that has a rule name twice.
fn rule_twice(alloc: Global, file: &GrammarFile) -> Result<Option<ImportFault>, AllocError>
    ensures { IfOk result (Finds RepeatsRule file.now) }
{
    match check_names(alloc, &file.source) {
        Ok(()) => Ok(None),
        Err(NameFault::RuleTwice(rule)) => {
            let file = Text::copy_of(alloc, file.name.as_str())?;
            Ok(Some(ImportFault::RuleTwice { file, rule }))
        }
        Err(NameFault::NoMemory) => Err(AllocError),
    }
}

/// The fault of the first file that has a rule name twice.
pub fn first_twice(alloc: Global, files: &[GrammarFile]) -> Result<Option<ImportFault>, AllocError>
    ensures { IfOk result (FindsFirst RepeatsRule files.now) }
{
    for file in files {
        if let Some(fault) = rule_twice(alloc, file)? {
            return Ok(Some(fault));
        }
    }
    Ok(None)
}
