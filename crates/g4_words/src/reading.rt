// The command that words are.
ghost use Rattle.std.specs.Prelude.{◌≡◌, ◌↔◌, ◌≤◌, ◌==◌, IfOk, true, map, option_map, string_bytes};
ghost use Rattle.std.specs.List.{list_all, slice_split};
ghost use Rattle.clap.specs.Words.{all_of, first_of, found_of, rows_of};
ghost use Rattle.g4_words.specs.Commands.{Accepts, AreGiven, Finds, FindsNumber, HasFlag, IsAtn, IsCheck, IsCommand, IsLearned, IsLibrary, IsNamed, IsNumber, IsOutput, IsParse, is_flag_byte, is_flag_name};

use crate::app::g4_command;
use crate::command::{
    Atn, Check, Command, DEFAULT_JOBS, DEFAULT_ROWS, MOST_FILES, MOST_JOBS, MOST_ROWS, Output,
    Parse,
};
use clap::ArgMatches;
use clap::error::ErrorKind;
use g4_base::{Sequence, Text};
use std::alloc::{AllocError, Global};

/// Why words are not read as a command.
#[derive(Drop)]
pub enum WordsFault {
    /// They are no command.
    Usage,
    /// Memory ran out.
    NoMemory,
}

impl From<AllocError> for WordsFault {
    ghost use Rattle.std.specs.Prelude.{◌≡◌};
    ghost use Rattle.g4_words.specs.declared.reading.WordsFault.TheVariants.{NoMemory};

    ghost from_gives = { λ _ e. e ≡ NoMemory };

    fn from(_: AllocError) -> Self {
        WordsFault::NoMemory
    }
}

/// What `clap` makes of the words, where it accepts them.
fn accepted<'a>(alloc: Global, words: &'a [String]) -> Result<ArgMatches<'a>, WordsFault>
    ensures { Accepts (map string_bytes words.entry.now) result }
{
    let command = g4_command(alloc)?;
    match command.try_get_matches_from(words) {
        Ok(matches) => Ok(matches),
        Err(error) => match error.kind() {
            ErrorKind::OutOfMemory => Err(WordsFault::NoMemory),
            _ => Err(WordsFault::Usage),
        },
    }
}

/// The one value that `clap` gives.
fn value_of<'a>(values: &ArgMatches<'a>, id: &str) -> Option<&'a str>
    ensures { option_map (λ s. s.now) result ≡ first_of id.now (rows_of (found_of values.now)) }
{
    values.get_str(id)
}

/// All values that `clap` gives.
fn values_of<'v, 'a>(values: &'v ArgMatches<'a>, id: &str) -> Option<&'v [&'a str]>
    ensures { option_map (λ s. map (λ v. v.now) s.now) result ≡ all_of id.now (rows_of (found_of values.now)) }
{
    values.get_strs(id)
}

/// Whether `clap` gives the flag.
fn has_flag(values: &ArgMatches<'_>, name: &str) -> bool
    ensures { (result ≡ true) ↔ HasFlag name.now (rows_of (found_of values.now)) }
{
    values.get_one::<bool>(name) == Some(true)
}

/// What is to be written: the trees, or what the one flag asks for. Both flags are Usage.
fn output_of(values: &ArgMatches<'_>) -> Result<Output, WordsFault>
    ensures { Finds (IsOutput (rows_of (found_of values.now))) result }
{
    match (has_flag(values, "events"), has_flag(values, "tokens")) {
        (false, false) => Ok(Output::Trees),
        (true, false) => Ok(Output::Events),
        (false, true) => Ok(Output::Tokens),
        (true, true) => Err(WordsFault::Usage),
    }
}

/// Whether it is to be written how much was learned. With another flag this is Usage.
fn learned_of(values: &ArgMatches<'_>, output: Output) -> Result<bool, WordsFault>
    ensures { Finds (IsLearned (rows_of (found_of values.now)) output) result }
{
    match (has_flag(values, "learned"), output) {
        (false, _) => Ok(false),
        (true, Output::Trees) => Ok(true),
        (true, _) => Err(WordsFault::Usage),
    }
}

/// The number from 1 that the text is in decimal digits, without a sign and without leading zeros, if it has 32 bits.
fn written_number(text: &str) -> Option<u32>
    ensures { FindsNumber text.now result }
{
    let first = text.as_bytes().first()?;
    if *first <= b'0' {
        return None;
    }
    text.parse::<u32>().ok()
}

/// The number that an option with this text gives, from 1 to `most`; without the option it is the default.
fn number_of(text: Option<&str>, default: u32, most: u32) -> Result<u32, WordsFault>
    requires default { (1 ≤ default) × (default ≤ most) }
    ensures { Finds (IsNumber (option_map (λ s. s.now) text.entry) default most) result }
{
    let Some(text) = text else {
        return Ok(default);
    };
    match written_number(text) {
        Some(number) => {
            if number > most {
                return Err(WordsFault::Usage);
            }
            Ok(number)
        }
        None => Err(WordsFault::Usage),
    }
}

/// The library that an option gives, if it is given.
fn library_of(alloc: Global, values: &ArgMatches<'_>) -> Result<Option<Text>, AllocError>
    ensures { IfOk result (IsLibrary (rows_of (found_of values.now))) }
{
    match value_of(values, "library") {
        Some(library) => Ok(Some(Text::copy_of(alloc, library)?)),
        None => Ok(None),
    }
}

fn copies_of(alloc: Global, texts: &[&str]) -> Result<Sequence<Text>, AllocError>
    ensures { IfOk result (λ s. s ≡ map (λ t. t.now) texts.now) }
{
    let mut copies = Vec::new(alloc);
    for text in texts {
        copies.push(Text::copy_of(alloc, text)?)?;
    }
    Ok(Sequence::new(copies))
}

fn is_flag_byte(b: u8) -> bool
    ensures { result ≡ is_flag_byte b }
{
    b.is_ascii_alphanumeric() || b == b'_'
}

fn are_flag_bytes(bytes: &[u8]) -> bool
    ensures { result ≡ list_all is_flag_byte bytes.now }
{
    bytes.iter().all(|b| is_flag_byte(*b))
}

/// Whether the text may be the name of a flag.
fn is_flag_name(name: &str) -> bool
    ensures { result ≡ is_flag_name name.now }
{
    !name.is_empty() && are_flag_bytes(name.as_bytes())
}

/// The parts between the commas of a text.
fn parts_of(alloc: Global, text: &str) -> Result<Sequence<Text>, AllocError>
    ensures { IfOk result (λ parts. parts ≡ slice_split (λ b. b == 44) text.now) }
{
    let parts: Vec<&str> = text.split(',').collect(alloc)?;
    let copies = copies_of(alloc, &parts)?;
    Ok(copies)
}

/// Whether all of these may be names of flags.
fn are_flag_names(names: &[Text]) -> bool
    ensures { result ≡ list_all is_flag_name names.now }
{
    names.iter().all(|name| is_flag_name(name.as_str()))
}

/// The flags that an option with this text gives; without the option there is none. Other names than those of flags are Usage.
fn flags_of(alloc: Global, text: Option<&str>) -> Result<Sequence<Text>, WordsFault>
    ensures { Finds (AreGiven (option_map (λ s. s.now) text.entry)) result }
{
    let Some(text) = text else {
        return Ok(Sequence::new(Vec::new(alloc)));
    };
    let flags = parts_of(alloc, text)?;
    if !are_flag_names(flags.as_slice()) {
        return Err(WordsFault::Usage);
    }
    Ok(flags)
}

fn read_parse(alloc: Global, values: &ArgMatches<'_>) -> Result<Parse, WordsFault>
    ensures { Finds (IsParse (rows_of (found_of values.now))) result }
{
    let Some(grammar) = value_of(values, "grammar") else {
        return Err(WordsFault::Usage);
    };
    let Some(start) = value_of(values, "start") else {
        return Err(WordsFault::Usage);
    };
    let Some(files) = values_of(values, "files") else {
        return Err(WordsFault::Usage);
    };
    if files.len() > MOST_FILES {
        return Err(WordsFault::Usage);
    }
    let jobs = number_of(value_of(values, "jobs"), DEFAULT_JOBS, MOST_JOBS)?;
    let rows = number_of(value_of(values, "rows"), DEFAULT_ROWS, MOST_ROWS)?;
    let flags = flags_of(alloc, value_of(values, "flags"))?;
    let output = output_of(values)?;
    let learned = learned_of(values, output)?;
    Ok(Parse {
        grammar: Text::copy_of(alloc, grammar)?,
        start: Text::copy_of(alloc, start)?,
        library: library_of(alloc, values)?,
        jobs,
        rows,
        flags,
        output,
        learned,
        files: copies_of(alloc, files)?,
    })
}

fn read_check(alloc: Global, values: &ArgMatches<'_>) -> Result<Check, WordsFault>
    ensures { Finds (IsCheck (rows_of (found_of values.now))) result }
{
    let Some(grammar) = value_of(values, "grammar") else {
        return Err(WordsFault::Usage);
    };
    Ok(Check {
        grammar: Text::copy_of(alloc, grammar)?,
        library: library_of(alloc, values)?,
    })
}

fn read_atn(alloc: Global, values: &ArgMatches<'_>) -> Result<Atn, WordsFault>
    ensures { Finds (IsAtn (rows_of (found_of values.now))) result }
{
    let Some(grammar) = value_of(values, "grammar") else {
        return Err(WordsFault::Usage);
    };
    let Some(rule) = value_of(values, "rule") else {
        return Err(WordsFault::Usage);
    };
    Ok(Atn {
        grammar: Text::copy_of(alloc, grammar)?,
        rule: Text::copy_of(alloc, rule)?,
        library: library_of(alloc, values)?,
    })
}

/// The command of this name with these values.
fn read_named(alloc: Global, name: &str, values: &ArgMatches<'_>) -> Result<Command, WordsFault>
    ensures { Finds (IsNamed name.now (rows_of (found_of values.now))) result }
{
    match name {
        "parse" => Ok(Command::Parse(read_parse(alloc, values)?)),
        "check" => Ok(Command::Check(read_check(alloc, values)?)),
        "atn" => Ok(Command::Atn(read_atn(alloc, values)?)),
        _ => Err(WordsFault::Usage),
    }
}

/// The command that the words are. The program's own name is not among them.
///
/// # Errors
/// `Usage` where they are no command, as where they ask for help, or have more than `MOST_FILES` files, a number that is not within its
/// limit, two flags that say what is written, or after `-f` a name that is none of a flag; `NoMemory` where memory runs out.
pub fn read_words(alloc: Global, words: &[String]) -> Result<Command, WordsFault>
    ensures { Finds (IsCommand (map string_bytes words.now)) result }
{
    let matches = accepted(alloc, words)?;
    match matches.subcommand() {
        Some((name, values)) => read_named(alloc, name, values),
        None => Err(WordsFault::Usage),
    }
}
