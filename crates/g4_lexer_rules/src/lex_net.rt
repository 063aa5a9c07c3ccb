// What a lexer goes by.
use g4_base::Sequence;
use g4_ordered::{LexerNetwork, Start};
use g4_source::Command;
use std::alloc::AllocError;

/// The network of a lexer, and what is known of its rules.
#[derive(Drop)]
pub struct LexNet {
    /// The rules of literals that have tokens of their own come first, then those of each mode.
    pub net: LexerNetwork,
    /// For each mode the places where a match may begin, those that win a tie first.
    pub modes: Sequence<Sequence<Start>>,
    /// For each rule the commands of its outer alternatives, as they are written.
    pub commands: Sequence<Sequence<Sequence<Command>>>,
}

/// Why there is no network.
#[derive(Drop)]
pub enum LexFault {
    /// More than 65,536 states.
    States,
    NoMemory,
}

impl From<AllocError> for LexFault {
    ghost use Rattle.std.specs.Prelude.{◌≡◌};
    ghost use Rattle.g4_lexer_rules.specs.declared.lex_net.LexFault.TheVariants.{NoMemory};

    ghost from_gives = { λ _ e. e ≡ NoMemory };

    fn from(_: AllocError) -> Self {
        LexFault::NoMemory
    }
}
