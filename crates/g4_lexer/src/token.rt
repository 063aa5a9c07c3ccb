// The tokens that matches make.
ghost use Rattle.std.specs.Prelude.{◌≡◌, ◌++◌, IfOk};
ghost use Rattle.g4_lexer.specs.Tokens.{Concludes, closing_at, type_or_eof, visible};

use crate::effects::{Effects, Fate};
use crate::fault::LexFault;
use crate::position::Position;
use g4_tokens::{END, EOF, Token};
use std::alloc::{AllocError, Global};

/// A token that has begun: where its first match begins, and its channel.
#[derive(Clone, Copy)]
pub(crate) struct Begun {
    pub from: Position,
    pub channel: u32,
}

/// A token type; that of EOF in the place of none.
fn type_or_eof(symbol: u32) -> u32
    ensures { result ≡ type_or_eof symbol }
{
    if symbol == 0 { EOF } else { symbol }
}

/// Concludes a match of the token that has begun, with what its commands did and where it ends: pushes the token that it makes, if
/// there is room, or gives the token that goes on.
///
/// # Errors
/// `Tokens` where there is no room, or no memory.
pub(crate) fn conclude(
    tokens: &mut Vec<Token>,
    room: usize,
    begun: Begun,
    effects: &Effects,
    end: Position,
) -> Result<Option<Begun>, LexFault>
    ensures { Concludes room begun effects.now end tokens.old.items tokens.new.items result }
{
    match effects.fate {
        Fate::Dropped => Ok(None),
        Fate::Kept => Ok(Some(Begun {
            from: begun.from,
            channel: effects.channel,
        })),
        Fate::Token(symbol) => {
            if tokens.len() >= room {
                return Err(LexFault::Tokens(begun.from.place));
            }
            tokens.push(Token {
                symbol: type_or_eof(symbol),
                channel: effects.channel,
                place: begun.from.place,
                start: begun.from.offset,
                end: end.offset,
            })?;
            Ok(None)
        }
    }
}

/// The tokens that the parser sees: those of channel 0.
pub(crate) fn parsed(alloc: Global, tokens: &[Token]) -> Result<Vec<Token>, AllocError>
    ensures { IfOk result (λ list. list.items ≡ visible tokens.now) }
{
    tokens
        .iter()
        .copied()
        .filter(|token| token.channel == 0)
        .collect(alloc)
}

/// Adds four tokens of EOF and one of END at the end of the file.
pub(crate) fn close(found: &mut Vec<Token>, end: Position) -> Result<(), AllocError>
    ensures { IfOk result (λ _. found.new.items ≡ found.old.items ++ closing_at end) }
{
    for symbol in [EOF, EOF, EOF, EOF, END] {
        found.push(Token {
            symbol,
            channel: 0,
            place: end.place,
            start: end.offset,
            end: end.offset,
        })?;
    }
    Ok(())
}
