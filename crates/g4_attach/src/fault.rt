// Why a parser grammar is not attached to a lexer grammar.
use g4_base::Text;
use g4_vocab::NumberFault;
use std::alloc::AllocError;

/// Why a parser grammar is not attached to a lexer grammar, in the order in which faults are looked for.
#[derive(Drop)]
pub enum AttachFault {
    /// There is no lexer grammar for the parser grammar of this name: none is given, or it is of another kind.
    NotALexer(Text),
    /// The first literal of the parser rules, as it is written, that is not the whole content of exactly one lexer rule of the default
    /// mode without `fragment`.
    LiteralWithoutToken(Text),
    /// More than 4,096 rules in both grammars.
    Rules,
    /// More than 4,096 token types of the lexer grammar by itself.
    Types,
    NoMemory,
}

impl From<AllocError> for AttachFault {
    ghost use Rattle.std.specs.Prelude.{◌≡◌};
    ghost use Rattle.g4_attach.specs.declared.fault.AttachFault.TheVariants.{NoMemory};

    ghost from_gives = { λ _ e. e ≡ NoMemory };

    fn from(_: AllocError) -> Self {
        AttachFault::NoMemory
    }
}

impl From<NumberFault> for AttachFault {
    ghost use Rattle.std.specs.Prelude.{◌≡◌};
    ghost use Rattle.g4_attach.specs.Attaching.{of_number};

    ghost from_gives = { λ d e. e ≡ of_number d };

    fn from(fault: NumberFault) -> Self {
        match fault {
            NumberFault::Rules => AttachFault::Rules,
            NumberFault::Types => AttachFault::Types,
            NumberFault::NoMemory => AttachFault::NoMemory,
        }
    }
}
