// Texts that are added one after another.
ghost use Rattle.std.specs.List.{flat_map};
ghost use Rattle.g4_trees.specs.Appending.{Adds};

use std::alloc::AllocError;

/// Adds texts, one after another.
pub(crate) fn push_all(out: &mut Vec<u8>, texts: &[&str]) -> Result<(), AllocError>
    ensures { Adds (flat_map (λ t. t.now) texts.now) out.old.items out.new.items result }
{
    for text in texts {
        out.extend_from_slice(text.as_bytes())?;
    }
    Ok(())
}
