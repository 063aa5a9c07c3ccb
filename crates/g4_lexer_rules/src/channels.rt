// The channels and the modes of a grammar, each once.
ghost use Rattle.std.specs.Prelude.{◌≡◌, ◌++◌, ◌||◌, ℕ, List, IfOk, OnOk, map, not};
ghost use Rattle.std.specs.Str.{bytes_eq};
ghost use Rattle.g4_checks.specs.Names.{declared_channels, is_one_of, mode_names};
ghost use Rattle.g4_lexer_rules.specs.Tables.{all_channels, channels_of, each_once, modes_of};

use g4_base::{Sequence, Text};
use g4_source::{Prequel, Source};
use std::alloc::{AllocError, Global};
use std::collections::BTreeSet;

/// Adds these names.
fn push_names<'a>(names: &mut Vec<&'a str>, more: &'a [Text]) -> Result<(), AllocError>
    ensures { OnOk result (map (λ n. n.now) names.new.items ≡ map (λ n. n.now) names.old.items ++ more.now) }
{
    for name in more {
        names.push(name.as_str())?;
    }
    Ok(())
}

/// Adds the channels that a prequel declares.
fn push_declared<'a>(names: &mut Vec<&'a str>, prequel: &'a Prequel) -> Result<(), AllocError>
    ensures { OnOk result (map (λ n. n.now) names.new.items ≡ map (λ n. n.now) names.old.items ++ declared_channels prequel.now) }
{
    if let Prequel::Channels(_, declared) = prequel {
        push_names(names, declared.as_slice())?;
    }
    Ok(())
}

/// The names of the channels as often as they are there: those that every grammar has, and those that it declares in order.
fn all_channels(alloc: Global, source: &Source) -> Result<Vec<&str>, AllocError>
    ensures { IfOk result (λ names. map (λ n. n.now) names.items ≡ all_channels source.now) }
{
    let mut names = Vec::new(alloc);
    names.push("DEFAULT_TOKEN_CHANNEL")?;
    names.push("HIDDEN")?;
    for prequel in source.prequels.as_slice() {
        push_declared(&mut names, prequel)?;
    }
    Ok(names)
}

/// Adds the name to those that are there, and says whether it is new.
fn is_new<'a>(seen: &mut BTreeSet<&'a str>, name: &'a str) -> Result<bool, AllocError>
    ensures new { IfOk result (λ is_new. is_new ≡ not (is_one_of (map (λ key. key.now) seen.old.keys) name.now)) }
    ensures added { OnOk result ((text : List ℕ)
        → is_one_of (map (λ key. key.now) seen.new.keys) text
        ≡ (is_one_of (map (λ key. key.now) seen.old.keys) text || bytes_eq text name.now)) }
{
    let is_new = seen.insert(name)?;
    Ok(is_new)
}

/// The names in order, each once.
fn each_once(alloc: Global, names: &[&str]) -> Result<Sequence<Text>, AllocError>
    ensures { IfOk result (λ made. made ≡ each_once (map (λ n. n.now) names.now)) }
{
    let mut seen = BTreeSet::new(alloc);
    let mut made = Vec::new(alloc);
    for name in names {
        if is_new(&mut seen, name)? {
            made.push(Text::copy_of(alloc, name)?)?;
        }
    }
    Ok(Sequence::new(made))
}

/// The names of the channels of a grammar, by their numbers.
pub fn channels_of(alloc: Global, source: &Source) -> Result<Sequence<Text>, AllocError>
    ensures { IfOk result (λ channels. channels ≡ channels_of source.now) }
{
    let names = all_channels(alloc, source)?;
    let channels = each_once(alloc, names.as_slice())?;
    Ok(channels)
}

/// The names of the modes as often as they are there: the default mode, and those that the grammar names in order.
fn mode_names(alloc: Global, source: &Source) -> Result<Vec<&str>, AllocError>
    ensures { IfOk result (λ names. map (λ n. n.now) names.items ≡ mode_names source.now) }
{
    let mut names = Vec::new(alloc);
    names.push("DEFAULT_MODE")?;
    push_names(&mut names, source.modes.as_slice())?;
    Ok(names)
}

/// The names of the modes of a grammar, by their numbers.
pub fn modes_of(alloc: Global, source: &Source) -> Result<Sequence<Text>, AllocError>
    ensures { IfOk result (λ modes. modes ≡ modes_of source.now) }
{
    let names = mode_names(alloc, source)?;
    let modes = each_once(alloc, names.as_slice())?;
    Ok(modes)
}
