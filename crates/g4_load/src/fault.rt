// The faults of a grammar, from those of the layers that read, check and build it.
ghost use Rattle.std.specs.Prelude.{◌≡◌, IfOk};
ghost use Rattle.g4_load.specs.Faults.{of_build};

use g4_attach::AttachFault;
use g4_base::{Place, Sequence, Text};
use g4_build::BuildFault;
use g4_checks::CheckFault;
use g4_lexer_rules::LexFault;
use g4_source::Refused;
use g4_vocab::NumberFault;
use std::alloc::{AllocError, Global};

/// The fault of a grammar, in the order in which faults are looked for.
#[derive(Drop)]
pub enum GrammarFault {
    /// The longest front part that is UTF-8 has this many bytes.
    NotUtf8(usize),
    /// The place and the characters of the first syntax fault.
    Syntax(Place, Sequence<char>),
    /// The place of the first character set that is empty, has a range that runs backward or names an unknown property.
    BadSet(Place),
    /// A bracket of a rule opens while 256 are open.
    Nesting,
    /// The name of the first rule whose name an earlier rule of its file has.
    RuleTwice(Text),
    /// The name by which a grammar of a kind is imported that cannot be imported there.
    BadImport(Text),
    /// The number of the first line of a file of tokens that is no token line, or gives a name or a literal a second number.
    BadTokensLine(u32),
    /// The name of a parser grammar whose `tokenVocab` names no lexer grammar.
    NotALexer(Text),
    /// The first literal of the rules of a parser grammar, as it is written, that is not the whole content of exactly one rule of its lexer
    /// grammar.
    LiteralWithoutToken(Text),
    /// More than 4,096 rules.
    Rules,
    /// More than 4,096 token types.
    Types,
    /// A fault of what its rules name, or of how they call each other.
    Check(CheckFault),
    /// No parser rule has this name, which the start rule was to have.
    UnknownStart(Text),
    /// More than 1,024 alternatives of a decision.
    Alternatives,
    /// More than 65,536 states of the network or of the lexer's.
    States,
    /// More than 16,777,216 cells of the learned automata, with the rows that are asked for: a grammar is not refused for that here.
    Cells,
}

/// Why a grammar is not checked or not built.
#[derive(Drop)]
pub enum CheckError {
    Fault(GrammarFault),
    NoMemory,
}

impl From<AttachFault> for CheckError {
    ghost use Rattle.std.specs.Prelude.{◌≡◌};
    ghost use Rattle.g4_load.specs.Faults.{of_attach};

    ghost from_gives = { λ d e. e ≡ of_attach d };

    fn from(fault: AttachFault) -> Self {
        match fault {
            AttachFault::NotALexer(name) => CheckError::Fault(GrammarFault::NotALexer(name)),
            AttachFault::LiteralWithoutToken(literal) => {
                CheckError::Fault(GrammarFault::LiteralWithoutToken(literal))
            }
            AttachFault::Rules => CheckError::Fault(GrammarFault::Rules),
            AttachFault::Types => CheckError::Fault(GrammarFault::Types),
            AttachFault::NoMemory => CheckError::NoMemory,
        }
    }
}

impl From<NumberFault> for CheckError {
    ghost use Rattle.std.specs.Prelude.{◌≡◌};
    ghost use Rattle.g4_load.specs.Faults.{of_number};

    ghost from_gives = { λ d e. e ≡ of_number d };

    fn from(fault: NumberFault) -> Self {
        match fault {
            NumberFault::Rules => CheckError::Fault(GrammarFault::Rules),
            NumberFault::Types => CheckError::Fault(GrammarFault::Types),
            NumberFault::NoMemory => CheckError::NoMemory,
        }
    }
}

impl From<AllocError> for CheckError {
    ghost use Rattle.std.specs.Prelude.{◌≡◌};
    ghost use Rattle.g4_load.specs.declared.fault.CheckError.TheVariants.{NoMemory};

    ghost from_gives = { λ _ e. e ≡ NoMemory };

    fn from(_: AllocError) -> Self {
        CheckError::NoMemory
    }
}

impl From<Refused<CheckFault>> for CheckError {
    ghost use Rattle.std.specs.Prelude.{◌≡◌};
    ghost use Rattle.g4_load.specs.Faults.{of_check};

    ghost from_gives = { λ d e. e ≡ of_check d };

    fn from(refused: Refused<CheckFault>) -> Self {
        match refused {
            Refused::Fault(fault) => CheckError::Fault(GrammarFault::Check(fault)),
            Refused::NoMemory => CheckError::NoMemory,
        }
    }
}

impl From<LexFault> for CheckError {
    ghost use Rattle.std.specs.Prelude.{◌≡◌};
    ghost use Rattle.g4_load.specs.Faults.{of_lexer};

    ghost from_gives = { λ d e. e ≡ of_lexer d };

    fn from(fault: LexFault) -> Self {
        match fault {
            LexFault::States => CheckError::Fault(GrammarFault::States),
            LexFault::NoMemory => CheckError::NoMemory,
        }
    }
}

/// What is reported of a network that was not built from this start rule.
pub fn not_built(alloc: Global, start: &str, fault: BuildFault) -> Result<CheckError, AllocError>
    ensures { IfOk result (λ error. error ≡ of_build start.now fault) }
{
    match fault {
        BuildFault::UnknownStart => {
            let name = Text::copy_of(alloc, start)?;
            Ok(CheckError::Fault(GrammarFault::UnknownStart(name)))
        }
        BuildFault::Alternatives => Ok(CheckError::Fault(GrammarFault::Alternatives)),
        BuildFault::States => Ok(CheckError::Fault(GrammarFault::States)),
        BuildFault::NoMemory => Ok(CheckError::NoMemory),
    }
}
