// The tests of a predicate.
ghost use Rattle.std.specs.Prelude.{◌≡◌, ◌≤◌, ◌+◌, length, IfOk};
ghost use Rattle.g4_preds.specs.Tests.{Gives, keyword, argument, comparison, test_after, named_test, first_test};

use crate::fault::Fault;
use crate::node::Test;
use crate::token::Token;
use g4_base::Text;
use std::alloc::Global;

/// A name that begins a test.
#[derive(Clone, Copy)]
pub enum Keyword {
    True,
    False,
    Flag,
    Inside,
    Text,
}

/// A test, and how many tokens it has after its keyword.
#[derive(Drop)]
pub struct Found {
    pub test: Test,
    pub more: usize,
}

fn keyword_of(name: &str) -> Option<Keyword>
    ensures { result ≡ keyword name.now }
{
    if name == "true" {
        Some(Keyword::True)
    } else if name == "false" {
        Some(Keyword::False)
    } else if name == "flag" {
        Some(Keyword::Flag)
    } else if name == "inside" {
        Some(Keyword::Inside)
    } else if name == "text" {
        Some(Keyword::Text)
    } else {
        None
    }
}

/// The name of `( NAME )`.
fn argument(alloc: Global, tokens: &[Token]) -> Result<Text, Fault>
    ensures value { Gives (argument tokens.now) result }
    ensures within { IfOk result (λ _. 3 ≤ length tokens.now) }
{
    match tokens {
        [
            Token::LeftParenthesis,
            Token::Name(name),
            Token::RightParenthesis,
            ..
        ] => {
            let name = Text::copy_of(alloc, name.as_str())?;
            Ok(name)
        }
        _ => Err(Fault::Unknown),
    }
}

/// The test of `( k ) == LITERAL`.
fn comparison(alloc: Global, tokens: &[Token]) -> Result<Test, Fault>
    ensures value { Gives (comparison tokens.now) result }
    ensures within { IfOk result (λ _. 5 ≤ length tokens.now) }
{
    match tokens {
        [
            Token::LeftParenthesis,
            Token::Digit(nth),
            Token::RightParenthesis,
            Token::DoubleEquals,
            Token::Literal(text),
            ..
        ] => {
            let text = Text::copy_of(alloc, text.as_str())?;
            Ok(Test::TextIs { nth: *nth, text })
        }
        _ => Err(Fault::Unknown),
    }
}

/// The test that the keyword begins.
fn test_after(alloc: Global, keyword: Keyword, rest: &[Token]) -> Result<Found, Fault>
    ensures value { Gives (test_after keyword rest.now) result }
    ensures within { IfOk result (λ f. f.more ≤ length rest.now) }
{
    match keyword {
        Keyword::True => Ok(Found {
            test: Test::Constant(true),
            more: 0,
        }),
        Keyword::False => Ok(Found {
            test: Test::Constant(false),
            more: 0,
        }),
        Keyword::Flag => {
            let name = argument(alloc, rest)?;
            Ok(Found {
                test: Test::Flag(name),
                more: 3,
            })
        }
        Keyword::Inside => {
            let rule = argument(alloc, rest)?;
            Ok(Found {
                test: Test::Inside(rule),
                more: 3,
            })
        }
        Keyword::Text => {
            let test = comparison(alloc, rest)?;
            Ok(Found { test, more: 5 })
        }
    }
}

fn named_test(alloc: Global, name: &str, rest: &[Token]) -> Result<Found, Fault>
    ensures value { Gives (named_test name.now rest.now) result }
    ensures within { IfOk result (λ f. f.more ≤ length rest.now) }
{
    match keyword_of(name) {
        Some(keyword) => test_after(alloc, keyword, rest),
        None => Err(Fault::Unknown),
    }
}

/// The test that the tokens begin with.
pub fn first_test(alloc: Global, tokens: &[Token]) -> Result<Found, Fault>
    ensures value { Gives (first_test tokens.now) result }
    ensures within { IfOk result (λ f. f.more + 1 ≤ length tokens.now) }
{
    match tokens {
        [Token::Name(name), rest @ ..] => named_test(alloc, name.as_str(), rest),
        _ => Err(Fault::Unknown),
    }
}
