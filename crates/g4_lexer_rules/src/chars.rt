// The sets of characters that the atoms of lexer rules take.
ghost use Rattle.std.specs.Prelude.{◌≡◌, ◌+◌, IfOk};
ghost use Rattle.g4_chars.specs.Building.{scalars, gaps};
ghost use Rattle.g4_lexer_rules.specs.Steps.{spanned};

use g4_chars::CharSet;
use std::alloc::{AllocError, Global};

/// The characters from the first to the last.
pub fn between(alloc: Global, first: char, last: char) -> Result<CharSet, AllocError>
    ensures { IfOk result (λ set. set ≡ scalars first (last + 1)) }
{
    let set = CharSet::of_range(alloc, first, last)?;
    let _canonical = set.ranges();
    Ok(set)
}

/// The characters from that of one literal to that of another, if each has one character.
pub fn spanned(alloc: Global, first: &[char], last: &[char]) -> Result<CharSet, AllocError>
    ensures { IfOk result (λ set. set ≡ spanned first.now last.now) }
{
    let [a] = first else {
        return Ok(CharSet::empty(alloc));
    };
    let [b] = last else {
        return Ok(CharSet::empty(alloc));
    };
    let set = between(alloc, *a, *b)?;
    Ok(set)
}

/// All characters.
pub fn all(alloc: Global) -> Result<CharSet, AllocError>
    ensures { IfOk result (λ set. set ≡ scalars 0 0x110000) }
{
    let set = between(alloc, '\0', char::MAX)?;
    Ok(set)
}

/// All characters but those of the set.
pub fn others(alloc: Global, set: &CharSet) -> Result<CharSet, AllocError>
    ensures { IfOk result (λ others. others ≡ gaps 0 set.now) }
{
    let _canonical = set.ranges();
    let others = set.negate(alloc)?;
    let _canonical_too = others.ranges();
    Ok(others)
}
