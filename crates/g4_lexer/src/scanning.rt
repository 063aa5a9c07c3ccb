// The tokens of the characters of a file.
ghost use Rattle.std.specs.Prelude.{◌≡◌, ◌≤◌, All, IfOk, length};
ghost use Rattle.g4_base.specs.declared.limits.TheConstants.{MOST_BYTES};
ghost use Rattle.g4_lexer.specs.Lexers.{HasTokenTypes, IsOfText, matched_by};
ghost use Rattle.g4_lexer.specs.Positions.{first_position, position_after};
ghost use Rattle.g4_lexer.specs.Scanning.{IsScan};
ghost use Rattle.g4_lexer.specs.Tokens.{EndsBy, HasText};

use crate::effects::Effects;
use crate::fault::LexFault;
use crate::lexer::Lexer;
use crate::position::Position;
use crate::token::{Begun, conclude};
use g4_matching::Matcher;
use g4_tokens::Token;
use std::alloc::Global;

/// The tokens of some characters, and the position of their end.
#[derive(Drop)]
pub(crate) struct Scanned {
    pub tokens: Vec<Token>,
    pub end: Position,
}

/// The tokens of a file's characters, at most `room`. What the matcher has learned before makes no difference to them.
///
/// # Errors
/// The first fault in the text, or no memory.
pub(crate) fn scan(
    alloc: Global,
    lexer: &Lexer,
    matcher: &mut Matcher<'_>,
    text: &[char],
    room: usize,
) -> Result<Scanned, LexFault>
    requires own { matcher.old ≡ matched_by lexer.now }
    requires fits { length text.now ≤ MOST_BYTES }
    ensures own { matcher.new ≡ matched_by lexer.now }
    ensures scan { IsScan room lexer.now text.now result }
    ensures end { IfOk result (λ found. found.end ≡ position_after first_position text.now) }
    ensures few { IfOk result (λ found. length found.tokens.items ≤ length text.now) }
    ensures limited { IfOk result (λ found. length found.tokens.items ≤ room) }
    ensures types { HasTokenTypes lexer.now → IfOk result (λ found. All (λ token. IsOfText token.symbol) found.tokens.items) }
    ensures spans { IfOk result (λ found. All (EndsBy found.end.offset) found.tokens.items) }
    ensures texts { IfOk result (λ found. All HasText found.tokens.items) }
{
    let mut effects = Effects::new(alloc);
    let mut tokens = Vec::new(alloc);
    let mut begun: Option<Begun> = None;
    let mut start = 0;
    let mut at = Position::START;
    while start < text.len() {
        let rest = &text[start..];
        let Some(matched) = matcher.longest_match(effects.mode, rest)? else {
            return Err(LexFault::NoToken(at.place, Some(rest[0])));
        };
        let token = begun.unwrap_or(Begun {
            from: at,
            channel: 0,
        });
        effects.begin(token.channel, lexer.rule_type(matched.rule));
        effects.carry_out_all(lexer.commands(matched.rule, matched.alternative), at.place)?;
        at = at.after(&rest[..matched.length]);
        begun = conclude(&mut tokens, room, token, &effects, at)?;
        start += matched.length;
    }
    if begun.is_some() {
        return Err(LexFault::NoToken(at.place, None));
    }
    Ok(Scanned { tokens, end: at })
}
