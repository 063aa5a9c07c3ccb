// From a grammar to its lexer's network: the rules of literals that have tokens of their own and the lexer rules, with their types.
// The network is laid by the same table as the parser's; what the commands of the rules do is given by number.
#![tactic(auto)]

mod building;
mod channels;
mod chars;
mod checked_lexer;
mod commands;
mod digits;
mod drawing;
mod gathering;
mod known;
mod law;
mod lex_net;
mod lexer;
mod lexer_rules;
mod literals;
mod lowering;
mod making;
mod network;
mod numbers;
mod sizes;
mod starting;
mod step;
mod tables;

pub use checked_lexer::CheckedLexer;
pub use gathering::checked_lexer_of;
pub use known::known_commands_are_carried_out;
pub use law::rules_can_be_lexed;
pub use lex_net::{LexFault, LexNet};
pub use lexer::build_lexer;
pub use lexer_rules::LexerRules;
pub use network::{is_lexable, one_lex_net, sets_match, states_are_counted};
pub use tables::CommandTables;
