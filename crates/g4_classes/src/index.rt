// Symbols by an index, so that a list can have an item for each of them.
ghost use Rattle.std.specs.Prelude.{◌≡◌, ◌<◌};
ghost use Rattle.g4_classes.specs.Indices.{index_of as index_in, symbol_at as symbol_in};

use g4_tokens::{END, EOF, MOST_TYPES};

/// The index of `EOF`, after those of the token types.
const EOF_INDEX: usize = 4_096;

/// The index of `END`, the last one.
const END_INDEX: usize = 4_097;

/// How many symbols there are.
pub(crate) const SYMBOL_COUNT: usize = 4_098;

/// The index of a symbol, if the number is one: symbols are in order.
pub(crate) fn index_of(symbol: u32) -> Option<usize>
    ensures { result ≡ index_in symbol }
{
    match symbol {
        1..=MOST_TYPES => Some(symbol as usize - 1),
        EOF => Some(EOF_INDEX),
        END => Some(END_INDEX),
        _ => None,
    }
}

/// The symbol of this index.
pub(crate) fn symbol_at(index: usize) -> u32
    requires { index < SYMBOL_COUNT }
    ensures { result ≡ symbol_in index }
{
    match index {
        EOF_INDEX => EOF,
        END_INDEX => END,
        _ => index as u32 + 1,
    }
}
