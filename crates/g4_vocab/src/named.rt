// The tokens that a grammar names.
ghost use Rattle.std.specs.Prelude.{IfOk, map};
ghost use Rattle.g4_vocab.specs.Tables.{AreNamed};

use crate::commanded::commanded_of;
use crate::declared::declared_of;
use crate::references::{Reference, references_of};
use g4_source::{Atom, ParserRule, Source};
use std::alloc::{AllocError, Global};

/// The tokens that a grammar names: in `tokens { .. }`, in parser rules and in commands, each in order of the text.
#[derive(Drop)]
pub struct Named<'a> {
    pub declared: Vec<Reference<'a>>,
    pub tokens: Vec<Reference<'a>>,
    pub commanded: Vec<Reference<'a>>,
}

/// The tokens that a grammar of these parser rules names.
pub fn named_in<'a>(
    alloc: Global,
    source: &'a Source,
    parsers: &[&'a ParserRule<Atom>],
) -> Result<Named<'a>, AllocError>
    ensures { IfOk result (AreNamed source.now (map (λ r. r.now) parsers.now)) }
{
    Ok(Named {
        declared: declared_of(alloc, source.prequels.as_slice())?,
        tokens: references_of(alloc, parsers)?,
        commanded: commanded_of(alloc, source.rules.as_slice())?,
    })
}
