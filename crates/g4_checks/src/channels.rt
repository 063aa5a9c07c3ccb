// The first channel that a command takes and that is not there.
ghost use Rattle.std.specs.Prelude.{◌≡◌, IfOk, OnOk, map, option_map};
ghost use Rattle.g4_checks.specs.References.{TakesNoChannel, commands_in};
ghost use Rattle.g4_checks.specs.Commands.{ArgumentIsUnknownChannel, IsUnknownChannel, argument_text, is_channel, is_channel_number};
ghost use Rattle.g4_source.specs.First.{Finds, FindsFirst};
ghost use Rattle.g4_checks.specs.Known.{AddsAll, AreSame};
ghost use Rattle.g4_checks.specs.Names.{channel_names, declared_channels, is_one_of};
ghost use Rattle.g4_checks.specs.Views.{AreParts};

use crate::names::{Names, copied};
use crate::parts::Parts;
use g4_base::Text;
use g4_source::{Argument, Command, Prequel, Source};
use std::alloc::{AllocError, Global};

/// The greatest number of a channel.
pub const MOST_CHANNEL: u64 = 4_294_967_295;

/// Adds the channels that a prequel declares.
fn add_declared<'a>(names: &mut Names<'a>, prequel: &'a Prequel) -> Result<(), AllocError>
    ensures { OnOk result (AddsAll names.old (declared_channels prequel.now) names.new) }
{
    if let Prequel::Channels(_, declared) = prequel {
        names.add_all(declared.as_slice())?;
    }
    Ok(())
}

/// The names of the channels.
fn channel_names(alloc: Global, source: &Source) -> Result<Names<'_>, AllocError>
    ensures { IfOk result (λ names. AreSame names (channel_names source.now)) }
{
    let mut names = Names::new(alloc);
    names.add("HIDDEN")?;
    names.add("DEFAULT_TOKEN_CHANNEL")?;
    for prequel in source.prequels.as_slice() {
        add_declared(&mut names, prequel)?;
    }
    Ok(names)
}

/// Whether the text is decimal digits, however many, of a number that a channel can have.
fn is_channel_number(text: &str) -> bool
    ensures { result ≡ is_channel_number text.now }
{
    let mut number: u64 = 0;
    for byte in text.as_bytes() {
        if !byte.is_ascii_digit() {
            return false;
        }
        number = 10 * number + u64::from(*byte - b'0');
        if number > MOST_CHANNEL {
            return false;
        }
    }
    true
}

/// Whether the argument is one of the channels, or the number of one.
fn is_channel(channels: &Names<'_>, argument: &Argument) -> bool
    ensures { result ≡ is_channel (is_one_of channels.now) argument.now }
{
    match argument {
        Argument::Name(name) => channels.has(name.as_str()),
        Argument::Number(number) => is_channel_number(number.as_str()),
    }
}

/// The argument as it is written.
fn argument_text(argument: &Argument) -> &str
    ensures { result.now ≡ argument_text argument.now }
{
    match argument {
        Argument::Name(name) => name.as_str(),
        Argument::Number(number) => number.as_str(),
    }
}

/// The channel that the command of this name takes, where there is none.
fn unknown_channel<'a>(
    channels: &Names<'_>,
    name: &str,
    argument: &'a Option<Argument>,
) -> Option<&'a str>
    ensures { Finds (ArgumentIsUnknownChannel (is_one_of channels.now) name.now) argument.now (option_map (λ n. n.now) result) }
{
    match argument {
        None => None,
        Some(channel) => {
            if name == "channel" && !is_channel(channels, channel) {
                Some(argument_text(channel))
            } else {
                None
            }
        }
    }
}

/// The first channel of the commands that is not one of these.
fn first_unknown<'a>(channels: &Names<'_>, commands: &[&'a Command]) -> Option<&'a str>
    ensures { FindsFirst (IsUnknownChannel (is_one_of channels.now)) (map (λ c. c.now) commands.now) (option_map (λ n. n.now) result) }
{
    for command in commands {
        let name = command.name.text.as_str();
        if let Some(channel) = unknown_channel(channels, name, &command.argument) {
            return Some(channel);
        }
    }
    None
}

/// The first channel that a command takes and that the grammar has not.
///
/// # Errors
/// No memory.
pub fn first_unknown_channel(
    alloc: Global,
    source: &Source,
    parts: &Parts<'_>,
) -> Result<Option<Text>, AllocError>
    requires { AreParts source.now parts.now }
    ensures { IfOk result (FindsFirst (TakesNoChannel source.now) (commands_in source.now)) }
{
    let channels = channel_names(alloc, source)?;
    let found = copied(alloc, first_unknown(&channels, parts.commands.as_slice()))?;
    Ok(found)
}
