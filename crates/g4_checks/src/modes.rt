// The first mode that a command takes and that is not there.
ghost use Rattle.std.specs.Prelude.{◌≡◌, IfOk, map, option_map};
ghost use Rattle.g4_checks.specs.References.{TakesNoMode, commands_in};
ghost use Rattle.g4_checks.specs.Commands.{ArgumentIsUnknownMode, IsUnknownMode, takes_mode};
ghost use Rattle.g4_source.specs.First.{Finds, FindsFirst};
ghost use Rattle.g4_checks.specs.Known.{AreSame};
ghost use Rattle.g4_checks.specs.Names.{is_one_of, mode_names};
ghost use Rattle.g4_checks.specs.Views.{AreParts};

use crate::names::{Names, copied};
use crate::parts::Parts;
use g4_base::Text;
use g4_source::{Argument, Command, Source};
use std::alloc::{AllocError, Global};

/// The names of the modes.
fn mode_names(alloc: Global, source: &Source) -> Result<Names<'_>, AllocError>
    ensures { IfOk result (λ names. AreSame names (mode_names source.now)) }
{
    let mut names = Names::new(alloc);
    names.add("DEFAULT_MODE")?;
    names.add_all(source.modes.as_slice())?;
    Ok(names)
}

/// Whether the command of this name takes a mode.
pub fn takes_mode(name: &str) -> bool
    ensures { result ≡ takes_mode name.now }
{
    name == "mode" || name == "pushMode"
}

/// The mode that the command of this name takes, where there is none.
fn unknown_mode<'a>(
    modes: &Names<'_>,
    name: &str,
    argument: &'a Option<Argument>,
) -> Option<&'a str>
    ensures { Finds (ArgumentIsUnknownMode (is_one_of modes.now) name.now) argument.now (option_map (λ n. n.now) result) }
{
    match argument {
        None => None,
        Some(Argument::Name(mode)) => {
            if takes_mode(name) && !modes.has(mode.as_str()) {
                Some(mode.as_str())
            } else {
                None
            }
        }
        Some(Argument::Number(_)) => None,
    }
}

/// The first mode of the commands that is not one of these.
fn first_unknown<'a>(modes: &Names<'_>, commands: &[&'a Command]) -> Option<&'a str>
    ensures { FindsFirst (IsUnknownMode (is_one_of modes.now)) (map (λ c. c.now) commands.now) (option_map (λ n. n.now) result) }
{
    for command in commands {
        if let Some(mode) = unknown_mode(modes, command.name.text.as_str(), &command.argument) {
            return Some(mode);
        }
    }
    None
}

/// The first mode that a command takes and that the grammar has not.
///
/// # Errors
/// No memory.
pub fn first_unknown_mode(
    alloc: Global,
    source: &Source,
    parts: &Parts<'_>,
) -> Result<Option<Text>, AllocError>
    requires { AreParts source.now parts.now }
    ensures { IfOk result (FindsFirst (TakesNoMode source.now) (commands_in source.now)) }
{
    let modes = mode_names(alloc, source)?;
    let found = copied(alloc, first_unknown(&modes, parts.commands.as_slice()))?;
    Ok(found)
}
