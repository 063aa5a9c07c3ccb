// What is looked through of a grammar, in order.
ghost use Rattle.std.specs.Prelude.{IfOk};
ghost use Rattle.g4_checks.specs.Views.{AreParts};

use crate::atoms::{AtomUse, atoms_of};
use crate::commands::commands_of;
use g4_source::{
    Atom, Command, LexerRule, ParserRule, Source, lexer_rules, parser_rules, views_of,
};
use std::alloc::{AllocError, Global};

/// The rules of a grammar of both kinds in order, and their atoms and commands.
#[derive(Drop)]
pub struct Parts<'a> {
    pub parsers: Vec<&'a ParserRule<Atom>>,
    pub lexers: Vec<&'a LexerRule>,
    pub atoms: Vec<AtomUse<'a>>,
    pub commands: Vec<&'a Command>,
}

/// The parts of the grammar.
///
/// # Errors
/// No memory.
pub fn parts_of(alloc: Global, source: &Source) -> Result<Parts<'_>, AllocError>
    ensures { IfOk result (AreParts source.now) }
{
    let rules = views_of(alloc, source.rules.as_slice())?;
    let parsers = parser_rules(alloc, rules.as_slice())?;
    let lexers = lexer_rules(alloc, rules.as_slice())?;
    let atoms = atoms_of(alloc, rules.as_slice())?;
    let commands = commands_of(alloc, rules.as_slice())?;
    Ok(Parts {
        parsers,
        lexers,
        atoms,
        commands,
    })
}
