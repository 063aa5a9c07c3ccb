// The commands of rules, as they are written.
ghost use Rattle.std.specs.Prelude.{◌≡◌, IfOk, map};
ghost use Rattle.g4_lexer_rules.specs.NetworkRules.{commands_of};

use g4_base::Sequence;
use g4_source::{Command, LexerAlternative, LexerRule};
use std::alloc::{AllocError, Global};

/// The commands of each of the alternatives.
fn of_alternatives(
    alloc: Global,
    alternatives: Vec<LexerAlternative>,
) -> Result<Sequence<Sequence<Command>>, AllocError>
    ensures { IfOk result (λ commands. commands ≡ map (λ x. x.commands) alternatives.items) }
{
    let mut all = Vec::new(alloc);
    for alternative in alternatives {
        all.push(alternative.commands)?;
    }
    Ok(Sequence::new(all))
}

/// The commands of the alternatives of each rule.
pub fn commands_of(
    alloc: Global,
    rules: Vec<LexerRule>,
) -> Result<Vec<Sequence<Sequence<Command>>>, AllocError>
    ensures { IfOk result (λ commands. commands.items ≡ commands_of rules.items) }
{
    let mut all = Vec::new(alloc);
    for rule in rules {
        all.push(of_alternatives(alloc, rule.alternatives.into_vec())?)?;
    }
    Ok(all)
}
