// The tokens of a predicate's text.
ghost use Rattle.g4_preds.specs.Answers.{Answers};
ghost use Rattle.g4_preds.specs.Tokens.{AreTokens};

use crate::fault::Fault;
use crate::piece::{Piece, read_piece};
use crate::token::Token;
use g4_base::Sequence;
use std::alloc::Global;

/// The tokens that the text is cut into.
pub fn scan(alloc: Global, text: &[char]) -> Result<Sequence<Token>, Fault>
    ensures { Answers (AreTokens text.now) result }
{
    let mut tokens = Vec::new(alloc);
    let mut at = 0;
    while at < text.len() {
        match read_piece(alloc, &text[at..])? {
            Piece::Blank => at += 1,
            Piece::Formed(token, more) => {
                tokens.push(token)?;
                at += 1 + more;
            }
        }
    }
    Ok(Sequence::new(tokens))
}
