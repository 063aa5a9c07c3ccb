// The first import of a grammar of a kind that cannot be imported there.
ghost use Rattle.std.specs.Prelude.{◌≡◌, ◌↔◌, IfOk, IsTrue, Some, slice_get, true};
ghost use Rattle.g4_fetch.specs.declared.closure.WithImports.{WithImports as Grammar};
ghost use Rattle.g4_horn.specs.Follows.{Tells};
ghost use Rattle.g4_imports.specs.Faults.{CannotImport};
ghost use Rattle.g4_imports.specs.Modes.{HasMode};
ghost use Rattle.g4_source.specs.First.{Finds, FindsFirst};

use crate::fault::ImportFault;
use crate::modes::with_modes;
use g4_base::Text;
use g4_fetch::{Import, WithImports};
use g4_merge::can_import;
use std::alloc::{AllocError, Global};

/// Whether it is told of this file that its grammar has a mode beside the default one.
fn has_mode(modes: &[bool], file: usize) -> bool
    ensures { IsTrue result ↔ (slice_get modes.now file ≡ Some true) }
{
    modes.get(file).copied().unwrap_or(false)
}

/// The fault of an import, where of each file it is told whether its grammar has a mode beside the default one.
fn bad_import(
    alloc: Global,
    grammar: &WithImports,
    modes: &[bool],
    import: &Import,
) -> Result<Option<ImportFault>, AllocError>
    requires { Tells modes.now (HasMode grammar.now) }
    ensures { IfOk result (Finds (CannotImport grammar.now) import.now) }
{
    let files = grammar.files.as_slice();
    let Some(importer) = files.get(import.importer) else {
        return Ok(None);
    };
    let Some(imported) = files.get(import.imported) else {
        return Ok(None);
    };
    let other_modes = has_mode(modes, import.imported);
    if can_import(importer.source.kind, imported.source.kind, other_modes) {
        return Ok(None);
    }
    let file = Text::copy_of(alloc, importer.name.as_str())?;
    let name = Text::copy_of(alloc, import.name.as_str())?;
    Ok(Some(ImportFault::BadImport { file, name }))
}

/// The fault of the first import of a grammar of a kind that cannot be imported there.
pub fn first_bad_import(
    alloc: Global,
    grammar: &WithImports,
) -> Result<Option<ImportFault>, AllocError>
    ensures { IfOk result (FindsFirst (CannotImport grammar.now) grammar.now.imports) }
{
    let modes = with_modes(alloc, grammar)?;
    for import in grammar.imports.as_slice() {
        if let Some(fault) = bad_import(alloc, grammar, modes.as_slice(), import)? {
            return Ok(Some(fault));
        }
    }
    Ok(None)
}
