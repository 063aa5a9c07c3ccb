// How a command line ends before any file is parsed.
ghost use Rattle.std.specs.Prelude.{◌≡◌, IfOk};
ghost use Rattle.g4_load.specs.Stopping.{IsHaltOfFetch, fault_in_file, file_told, stop_of_fetch, stop_of_import};
ghost use Rattle.g4_load.specs.declared.stop.Stop.TheVariants.{Fault};

use crate::fault::GrammarFault;
use g4_base::Text;
use g4_fetch::FileFault;
use g4_imports::ImportFault;
use g4_source::Refused;
use std::alloc::{AllocError, AllocFailed, Global};

/// How a command line ends before any file is parsed.
#[derive(Drop)]
pub enum Stop {
    /// The words are no command.
    Usage,
    /// No file has this name.
    Absent(Text),
    /// The grammar file of this name has this many bytes, which is past the limit.
    TooLarge(Text, u64),
    /// The grammar file of this name has this fault.
    Fault(Text, GrammarFault),
}

/// Why no file is parsed.
#[derive(Drop)]
pub enum Halt {
    Stop(Stop),
    /// A fetch failed.
    Failed,
    NoMemory,
}

impl From<AllocError> for Halt {
    ghost use Rattle.std.specs.Prelude.{◌≡◌};
    ghost use Rattle.g4_load.specs.declared.stop.Halt.TheVariants.{NoMemory};

    ghost from_gives = { λ _ e. e ≡ NoMemory };

    fn from(_: AllocError) -> Self {
        Halt::NoMemory
    }
}

impl<T: Drop> From<AllocFailed<T>> for Halt {
    ghost use Rattle.std.specs.Prelude.{◌≡◌};
    ghost use Rattle.g4_load.specs.declared.stop.Halt.TheVariants.{NoMemory};

    ghost from_gives = { λ _ e. e ≡ NoMemory };

    fn from(_: AllocFailed<T>) -> Self {
        Halt::NoMemory
    }
}

/// The fault of a file that is no grammar.
fn fault_in_file(fault: FileFault) -> GrammarFault
    ensures { result ≡ fault_in_file fault }
{
    match fault {
        FileFault::NotUtf8(at) => GrammarFault::NotUtf8(at),
        FileFault::Syntax(place, characters) => GrammarFault::Syntax(place, characters),
        FileFault::BadSet(place) => GrammarFault::BadSet(place),
        FileFault::Nesting => GrammarFault::Nesting,
        FileFault::BadTokensLine(line) => GrammarFault::BadTokensLine(line),
        FileFault::Types => GrammarFault::Types,
    }
}

/// The name of the file in which a file's fault is told: the limit of types is told of the main file.
fn file_of<'a>(main: &'a str, file: &'a str, fault: &FileFault) -> &'a str
    ensures { result.now ≡ file_told main.now file.now fault.now }
{
    match fault {
        FileFault::Types => main,
        _ => file,
    }
}

/// How the command line ends where fetching its grammar, in the main file of this name, stops.
fn stop_of_fetch(alloc: Global, main: &str, stop: g4_fetch::Stop) -> Result<Stop, AllocError>
    ensures { IfOk result (λ found. found ≡ stop_of_fetch main.now stop) }
{
    match stop {
        g4_fetch::Stop::Absent(name) => Ok(Stop::Absent(name)),
        g4_fetch::Stop::TooLarge(name, size) => Ok(Stop::TooLarge(name, size)),
        g4_fetch::Stop::Unreadable(name, fault) => {
            let file = Text::copy_of(alloc, file_of(main, name.as_str(), &fault))?;
            Ok(Stop::Fault(file, fault_in_file(fault)))
        }
    }
}

/// Why no file is parsed where the grammar in the main file of this name is not fetched.
pub fn halt_of_fetch(alloc: Global, main: &str, halt: g4_fetch::Halt) -> Halt
    ensures { IsHaltOfFetch main.now halt result }
{
    match halt {
        g4_fetch::Halt::Stop(stop) => match stop_of_fetch(alloc, main, stop) {
            Ok(stop) => Halt::Stop(stop),
            Err(_) => Halt::NoMemory,
        },
        g4_fetch::Halt::Failed => Halt::Failed,
        g4_fetch::Halt::NoMemory => Halt::NoMemory,
    }
}

/// How the command line ends where its grammar does not become one with those that it imports.
fn stop_of_import(fault: ImportFault) -> Stop
    ensures { result ≡ stop_of_import fault }
{
    match fault {
        ImportFault::RuleTwice { file, rule } => Stop::Fault(file, GrammarFault::RuleTwice(rule)),
        ImportFault::BadImport { file, name } => Stop::Fault(file, GrammarFault::BadImport(name)),
    }
}

impl From<Refused<ImportFault>> for Halt {
    ghost use Rattle.std.specs.Prelude.{◌≡◌};
    ghost use Rattle.g4_load.specs.Stopping.{halt_of_import};

    ghost from_gives = { λ d e. e ≡ halt_of_import d };

    fn from(refused: Refused<ImportFault>) -> Self {
        match refused {
            Refused::Fault(fault) => Halt::Stop(stop_of_import(fault)),
            Refused::NoMemory => Halt::NoMemory,
        }
    }
}

/// The grammar file of this name has the fault.
pub fn fault_of(alloc: Global, name: &str, fault: GrammarFault) -> Result<Stop, AllocError>
    ensures { IfOk result (λ stop. stop ≡ Fault name.now fault) }
{
    let name = Text::copy_of(alloc, name)?;
    Ok(Stop::Fault(name, fault))
}
