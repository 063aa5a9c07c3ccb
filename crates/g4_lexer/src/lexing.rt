// The tokens of a file.
ghost use Rattle.std.specs.Prelude.{◌≡◌, ◌≤◌, ◌+◌, All, IfOk, length};
ghost use Rattle.g4_base.specs.declared.limits.TheConstants.{MOST_BYTES};
ghost use Rattle.g4_tokens.specs.TokenList.{EndsInEnd, word_of};
ghost use Rattle.g4_lexer.specs.Lexers.{HasTokenTypes, IsOfList, matched_by};
ghost use Rattle.g4_lexer.specs.Lexing.{IsLexing, IsLexingWithin};
ghost use Rattle.g4_lexer.specs.Tokens.{EndsBy, HasText};

use crate::decode::{DecodeError, characters};
use crate::fault::LexFault;
use crate::lexer::Lexer;
use crate::scanning::scan;
use crate::token::{close, parsed};
use g4_base::{Octets, Sequence};
use g4_matching::Matcher;
use g4_tokens::Tokens;
use std::alloc::Global;

/// The most tokens that a file may have, on all channels together. Matches that make no token and those that close the file are not
/// counted.
pub const MOST_TOKENS: usize = 1_000_000;

/// The tokens of a file, of which at most `room` may be made. The matcher is one of this lexer.
///
/// # Errors
/// As `tokens`, with `room` in place of 1,000,000.
pub fn tokens_within(
    alloc: Global,
    lexer: &Lexer,
    matcher: &mut Matcher<'_>,
    bytes: Octets,
    room: usize,
) -> Result<Tokens, LexFault>
    requires own { matcher.old ≡ matched_by lexer.now }
    requires fits { length bytes ≤ MOST_BYTES }
    ensures own { matcher.new ≡ matched_by lexer.now }
    ensures lexing { IsLexingWithin room lexer.now bytes result }
    ensures same { IfOk result (λ found. found.bytes ≡ bytes) }
    ensures few { IfOk result (λ found. length found.list ≤ length bytes + 5) }
    ensures limited { IfOk result (λ found. length found.list ≤ room + 5) }
    ensures ends { HasTokenTypes lexer.now → IfOk result (λ found. EndsInEnd (word_of found.list)) }
    ensures symbols { HasTokenTypes lexer.now → IfOk result (λ found. All IsOfList (word_of found.list)) }
    ensures spans { IfOk result (λ found. All (EndsBy (length bytes)) found.all) }
    ensures list_spans { IfOk result (λ found. All (EndsBy (length bytes)) found.list) }
    ensures texts { IfOk result (λ found. All HasText found.all) }
{
    let text = match characters(alloc, bytes.as_slice()) {
        Ok(text) => text,
        Err(DecodeError::NotUtf8(at)) => return Err(LexFault::NotUtf8(at)),
        Err(DecodeError::NoMemory) => return Err(LexFault::NoMemory),
    };
    let found = scan(alloc, lexer, matcher, &text, room)?;
    let mut list = parsed(alloc, &found.tokens)?;
    close(&mut list, found.end)?;
    Ok(Tokens {
        bytes,
        all: Sequence::new(found.tokens),
        list: Sequence::new(list),
    })
}

/// The tokens of a file, and what the parser sees of them: those of channel 0, with four of EOF and one of END after them. Their
/// spans count bytes. The matcher is one of this lexer, which may serve one file after another: what it has learned of the files before
/// makes no difference to the tokens, and a file that takes known ways alone is matched with no memory taken.
///
/// # Errors
/// `NotUtf8` where the bytes are not UTF-8. Else the first in the text of: `NoToken` where no rule matches one character or more,
/// or where the file ends in a token that `more` has begun; `EmptyModeStack` at a match whose `popMode` finds no mode pushed;
/// `Tokens` at the token past the first 1,000,000.
pub fn tokens(
    alloc: Global,
    lexer: &Lexer,
    matcher: &mut Matcher<'_>,
    bytes: Octets,
) -> Result<Tokens, LexFault>
    requires own { matcher.old ≡ matched_by lexer.now }
    requires fits { length bytes ≤ MOST_BYTES }
    ensures own { matcher.new ≡ matched_by lexer.now }
    ensures lexing { IsLexing lexer.now bytes result }
    ensures same { IfOk result (λ found. found.bytes ≡ bytes) }
    ensures few { IfOk result (λ found. length found.list ≤ length bytes + 5) }
    ensures limited { IfOk result (λ found. length found.list ≤ MOST_TOKENS + 5) }
    ensures ends { HasTokenTypes lexer.now → IfOk result (λ found. EndsInEnd (word_of found.list)) }
    ensures symbols { HasTokenTypes lexer.now → IfOk result (λ found. All IsOfList (word_of found.list)) }
    ensures spans { IfOk result (λ found. All (EndsBy (length bytes)) found.all) }
    ensures list_spans { IfOk result (λ found. All (EndsBy (length bytes)) found.list) }
    ensures texts { IfOk result (λ found. All HasText found.all) }
{
    tokens_within(alloc, lexer, matcher, bytes, MOST_TOKENS)
}
