// The matcher of a worker, which is of the run's lexer.
ghost use Rattle.std.specs.Prelude.{◌≡◌, IfOk};
ghost use Rattle.g4_lexer.specs.Lexers.{matched_by};
ghost use Rattle.g4_ordered.specs.Network.{IsLexable};

use g4_lexer::{Lexer, Matcher};
use std::alloc::{AllocError, Global};
use std::marker::{Brand, Model, PhantomData};

/// Names the lexer of a run.
pub trait LexerHome {
    ghost use Rattle.g4_lexer.specs.declared.lexer.Lexer.{Lexer as LexerOf};

    ghost lexer: { LexerOf };
}

impl LexerHome for Brand {
    ghost use Rattle.g4_pool.specs.Lexers.{no_lexer};

    ghost lexer = { no_lexer };
}

/// A matcher of the run's lexer, and of no other.
#[derive(Drop)]
pub struct OwnMatcher<'a, L: LexerHome> {
    pub(crate) matcher: Matcher<'a>,
    home: PhantomData<L>,
}

impl<'a, L: LexerHome> Model for OwnMatcher<'a, L> {
    ghost use Rattle.std.specs.Prelude.{◌≡◌};
    ghost use Rattle.g4_lexer.specs.declared.lexer.Lexer.{Lexer as LexerOf};
    ghost use Rattle.g4_lexer.specs.Lexers.{matched_by};

    ghost Value = { LexerOf };

    ghost view = { λ _. L.lexer };

    ghost invariant = { λ m. m.matcher ≡ matched_by L.lexer };
}

impl<'a, L: LexerHome> OwnMatcher<'a, L> {
    /// With nothing learned.
    ///
    /// # Errors
    /// No memory.
    pub fn new(alloc: Global, lexer: &'a Lexer) -> Result<OwnMatcher<'a, L>, AllocError>
        requires own { lexer.now ≡ L.lexer }
        requires lexable { IsLexable lexer.now.net }
    {
        let matcher = lexer.matcher(alloc)?;
        Ok(OwnMatcher {
            matcher,
            home: PhantomData,
        })
    }

    /// Another one, which has learned nothing.
    ///
    /// # Errors
    /// No memory.
    pub fn another(&self, alloc: Global) -> Result<OwnMatcher<'a, L>, AllocError> {
        let matcher = self.matcher.another(alloc)?;
        Ok(OwnMatcher {
            matcher,
            home: PhantomData,
        })
    }
}
