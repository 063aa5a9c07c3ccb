// How deep the parentheses and negations of a predicate are nested.
ghost use Rattle.std.specs.Prelude.{◌≡◌, ◌<◌, ◌^◌, ◌-◌, [], ◌∷◌, drop, IfOk, OnOk};
ghost use Rattle.g4_preds.specs.Grammar.{IsOr};
ghost use Rattle.g4_preds.specs.Levels.{base, levels_of, none_open, deeper, past};
ghost use Rattle.g4_preds.specs.Nesting.{depth_of_or};
ghost use Rattle.g4_preds.specs.Trees.{Tree};

use crate::token::Token;
use std::alloc::{AllocError, Global};
use std::marker::Model;

/// How many `(` and `!` of a predicate may be open at once.
pub const MOST_NESTED: usize = 256;

/// Of each `(` that is open, how many `(` and `!` were open with it, which contracts see newest first.
#[derive(Drop)]
pub struct Bases {
    counts: Vec<usize>,
}

impl Model for Bases {
    ghost use Rattle.std.specs.Prelude.{ℕ, List};
    ghost use Rattle.g4_preds.specs.Newest.{newest_first};

    ghost Value = { List ℕ };

    ghost view = { λ b. newest_first b.counts.items };
}

impl Bases {
    /// None.
    fn new(alloc: Global) -> Self
        ensures { result ≡ [] }
    {
        Bases {
            counts: Vec::new(alloc),
        }
    }

    /// Adds that of a `(`, the newest.
    fn push(&mut self, count: usize) -> Result<(), AllocError>
        ensures { OnOk result (self.new ≡ count ∷ self.old) }
    {
        self.counts.push(count)?;
        Ok(())
    }

    /// That of the newest `(`; none, where none is open.
    fn newest(&self) -> usize
        ensures { result ≡ base self.now }
    {
        self.counts.last().copied().unwrap_or(0)
    }

    /// Takes the newest away, if there is one.
    fn drop_newest(&mut self)
        ensures { self.new ≡ drop 1 self.old }
    {
        let _ = self.counts.pop();
    }
}

/// What is open after some tokens of a predicate. A `!` is open up to the end of what it denies.
#[derive(Drop)]
pub struct Nesting {
    /// How many `(` and `!` are open.
    pub current: usize,
    pub bases: Bases,
    /// How many were open at most.
    pub most: usize,
}

impl Nesting {
    fn new(alloc: Global) -> Self
        ensures { levels_of result ≡ none_open }
    {
        Nesting {
            current: 0,
            bases: Bases::new(alloc),
            most: 0,
        }
    }

    /// Opens one more.
    fn deepen(&mut self)
        requires { self.old.current < 2 ^ 64 - 1 }
        ensures { levels_of self.new ≡ deeper (levels_of self.old) }
    {
        self.current += 1;
        self.most = self.most.max(self.current);
    }

    /// Goes past a token.
    fn pass(&mut self, token: &Token) -> Result<(), AllocError>
        requires { self.old.current < 2 ^ 64 - 1 }
        ensures { OnOk result (levels_of self.new ≡ past token.now (levels_of self.old)) }
    {
        match token {
            Token::Exclamation => {
                self.deepen();
                Ok(())
            }
            Token::LeftParenthesis => {
                self.deepen();
                self.bases.push(self.current)?;
                Ok(())
            }
            Token::RightParenthesis => {
                self.bases.drop_newest();
                self.current = self.bases.newest();
                Ok(())
            }
            Token::DoubleAmpersand => {
                self.current = self.bases.newest();
                Ok(())
            }
            Token::DoubleBar => {
                self.current = self.bases.newest();
                Ok(())
            }
            _ => Ok(()),
        }
    }
}

/// How many `(` and `!` are open at once at most in the predicate that the tokens are.
pub fn depth(alloc: Global, tokens: &[Token]) -> Result<usize, AllocError>
    ensures { IfOk result (λ n. (tree : Tree) (reads : IsOr tokens.now tree) → n ≡ depth_of_or reads) }
{
    let mut nesting = Nesting::new(alloc);
    for token in tokens {
        nesting.pass(token)?;
    }
    Ok(nesting.most)
}
