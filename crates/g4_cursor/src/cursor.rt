// A cursor over the tokens of a text. Where the next token is not one that may come there, or begins a bad set, reading stops:
// from then on no token is next and nothing more is taken, so that what reads a part needs no branch for it.
ghost use Rattle.std.specs.Prelude.{◌≡◌, length, option_map};
ghost use Rattle.g4_syntax.specs.Notation.{optional, sign, word, name as a_name};
ghost use Rattle.g4_grammar_tokens.specs.declared.token.Kind.TheVariants as kinds;
ghost use Rattle.g4_cursor.specs.Progress.{bytes_ahead, halt_of, halted, is_next, reading, rest_of, Moves, Passes, Gives};
ghost use Rattle.g4_cursor.specs.Parts.{AreParts};
ghost use Rattle.g4_cursor.specs.declared.cursor.Halt.TheVariants.{BadSet};
ghost use Rattle.g4_cursor.specs.Taken.{Advances, IsTaken};
ghost use Rattle.g4_cursor.specs.Texts.{spelled, is_present, place_of, text_of, name_of};

use crate::spelling::{part, token_at};
use g4_base::{Place, Text};
use g4_grammar_tokens::{Kind, Token};
use g4_source::Name;
use std::alloc::{AllocError, Global};
use std::marker::Model;

/// Why reading stops before a token.
#[derive(Clone, Copy, Debug, PartialEq, Eq)]
pub enum Halt {
    /// The token cannot come there.
    Fault,
    /// A bad character set begins with it.
    BadSet,
}

/// The tokens of a text that are left to read.
#[derive(Drop)]
pub struct Cursor<'a> {
    alloc: Global,
    text: &'a str,
    rest: &'a [Token],
    /// Why reading has stopped, if it has.
    halt: Option<Halt>,
}

impl<'a> Model for Cursor<'a> {
    ghost use Rattle.g4_cursor.specs.Progress.{Progress, progress};
    ghost use Rattle.g4_cursor.specs.Texts.{spelled};
    ghost use Rattle.g4_cursor.specs.Parts.{AreParts};

    ghost Value = { Progress };

    ghost view = { λ c. progress c.halt (spelled c.text.now c.rest.now) };

    ghost invariant = { λ c. AreParts c.text.now c.rest.now };
}

/// A token that was taken; where reading stopped, one without text.
#[derive(Clone, Copy)]
pub struct Taken<'a> {
    pub place: Place,
    pub text: &'a str,
}

impl<'a> Cursor<'a> {
    /// A cursor before the first of these tokens of the text.
    pub fn new(alloc: Global, text: &'a str, tokens: &'a [Token]) -> Self
        requires { AreParts text.now tokens.now }
        ensures { result ≡ reading (spelled text.now tokens.now) }
    {
        Cursor {
            alloc,
            text,
            rest: tokens,
            halt: None,
        }
    }

    /// What memory is taken from.
    pub fn alloc(&self) -> Global {
        self.alloc
    }

    /// Whether the next token is of this kind.
    pub fn is_at(&self, kind: Kind) -> bool
        ensures { result ≡ is_next (sign kind) self.now }
    {
        match self.rest.split_first() {
            Some((token, _)) => self.halt.is_none() && token.kind == kind,
            None => false,
        }
    }

    /// Whether the next token is the lower-case name with this spelling.
    pub fn is_at_word(&self, spelling: &str) -> bool
        ensures { result ≡ is_next (word spelling.now) self.now }
    {
        match self.rest.split_first() {
            Some((token, _)) => self.is_at(Kind::Lower) && part(self.text, token) == spelling,
            None => false,
        }
    }

    /// Whether the next token is a name of either case.
    pub fn is_at_name(&self) -> bool
        ensures { result ≡ is_next a_name self.now }
    {
        self.is_at(Kind::Lower) || self.is_at(Kind::Upper)
    }

    /// The text of the token that comes so many tokens after the next one, if it is of this kind.
    pub fn text_ahead(&self, many: usize, kind: Kind) -> Option<&'a str>
        ensures { option_map (λ text. text.now) result ≡ bytes_ahead many kind self.now }
    {
        if self.halt.is_some() {
            return None;
        }
        let Some(token) = token_at(self.rest, many) else {
            return None;
        };
        if token.kind == kind {
            Some(part(self.text, &token))
        } else {
            None
        }
    }

    /// Moves past the next token, if there is one.
    fn advance(&mut self) -> Taken<'a>
        ensures { Advances self.old result self.new }
    {
        match self.rest.split_first() {
            Some((token, rest)) => {
                self.rest = rest;
                Taken {
                    place: token.place,
                    text: part(self.text, token),
                }
            }
            None => Taken {
                place: Place::START,
                text: "",
            },
        }
    }

    /// Stops reading for this, if it has not stopped before.
    fn stop(&mut self, halt: Halt) -> Taken<'a>
        ensures { self.new ≡ halted halt self.old }
    {
        if self.halt.is_none() {
            self.halt = Some(halt);
        }
        Taken {
            place: Place::START,
            text: "",
        }
    }

    /// Stops reading before the next token, with which a bad set begins.
    pub fn refuse(&mut self) -> Taken<'a>
        ensures { self.new ≡ halted BadSet self.old }
    {
        self.stop(Halt::BadSet)
    }

    /// Takes a token of this kind.
    pub fn take(&mut self, kind: Kind) -> Taken<'a>
        ensures { Moves {x = sign kind} (IsTaken result) self.old self.new }
    {
        if self.is_at(kind) {
            self.advance()
        } else {
            self.stop(Halt::Fault)
        }
    }

    /// Takes the lower-case name with this spelling.
    pub fn take_word(&mut self, spelling: &str) -> Taken<'a>
        ensures { Moves {x = word spelling.now} (IsTaken result) self.old self.new }
    {
        if self.is_at_word(spelling) {
            self.advance()
        } else {
            self.stop(Halt::Fault)
        }
    }

    /// Takes a name of either case.
    pub fn take_name(&mut self) -> Taken<'a>
        ensures { Moves {x = a_name} (IsTaken result) self.old self.new }
    {
        if self.is_at_name() {
            self.advance()
        } else {
            self.stop(Halt::Fault)
        }
    }

    /// Takes a token of this kind, if it is next, and says whether it was.
    pub fn take_if(&mut self, kind: Kind) -> bool
        ensures { Moves {x = optional (sign kind)} (λ tree. result ≡ is_present tree) self.old self.new }
    {
        if !self.is_at(kind) {
            return false;
        }
        self.take(kind);
        true
    }

    /// The text of a name of either case.
    pub fn name_text(&mut self) -> Result<Text, AllocError>
        ensures { Gives {x = a_name} text_of self.old self.new result }
    {
        let taken = self.take_name();
        let text = Text::copy_of(self.alloc, taken.text)?;
        Ok(text)
    }

    /// The text of a token of this kind.
    pub fn text(&mut self, kind: Kind) -> Result<Text, AllocError>
        ensures { Gives {x = sign kind} text_of self.old self.new result }
    {
        let taken = self.take(kind);
        let text = Text::copy_of(self.alloc, taken.text)?;
        Ok(text)
    }

    /// A name of either case.
    pub fn name(&mut self) -> Result<Name, AllocError>
        ensures { Gives {x = a_name} name_of self.old self.new result }
    {
        let taken = self.take_name();
        let text = Text::copy_of(self.alloc, taken.text)?;
        let place = taken.place;
        Ok(Name { text, place })
    }

    /// The name that a token of this kind is.
    pub fn named(&mut self, kind: Kind) -> Result<Name, AllocError>
        ensures { Gives {x = sign kind} name_of self.old self.new result }
    {
        let taken = self.take(kind);
        let text = Text::copy_of(self.alloc, taken.text)?;
        let place = taken.place;
        Ok(Name { text, place })
    }

    /// Takes `(`, and says whether it was next.
    pub fn open(&mut self) -> bool
        ensures moves { Passes (sign kinds.LeftParenthesis) self.old self.new }
        ensures opened { result ≡ is_next (sign kinds.LeftParenthesis) self.old }
    {
        let opened = self.is_at(Kind::LeftParenthesis);
        self.take(Kind::LeftParenthesis);
        opened
    }

    /// How many tokens are left, from the one on before which reading stopped.
    pub fn left(&self) -> usize
        ensures { result ≡ length (rest_of self.now) }
    {
        self.rest.len()
    }

    /// The place of the next token, or of the one before which reading stopped; the first place at the end.
    pub fn place(&self) -> Place
        ensures { result ≡ place_of (rest_of self.now) }
    {
        match self.rest.first() {
            Some(token) => token.place,
            None => Place::START,
        }
    }

    /// Why reading has stopped, if it has.
    pub fn halt(&self) -> Option<Halt>
        ensures { result ≡ halt_of self.now }
    {
        self.halt
    }
}
