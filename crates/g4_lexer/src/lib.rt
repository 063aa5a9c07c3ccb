// The tokens of a file: its bytes are decoded, and the match by the lexer's network makes the next step, as the commands of its
// alternative say.
#![tactic(auto)]

mod command;
mod decode;
mod effects;
mod fault;
mod law;
mod lexer;
mod lexing;
mod mode_stack;
mod position;
mod scanning;
mod token;

pub use command::LexerCommand;
pub use fault::LexFault;
pub use g4_matching::Matcher;
pub use law::{one_lexing, one_lexing_within};
pub use lexer::Lexer;
pub use lexing::{MOST_TOKENS, tokens, tokens_within};
