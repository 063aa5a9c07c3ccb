// The parser of predicates: operators wait until their operands are read.
ghost use Rattle.std.specs.Prelude.{◌≡◌, ◌<◌, ◌≤◌, ◌+◌, length, IfOk, OnOk};
ghost use Rattle.g4_preds.specs.Answers.{Answers};
ghost use Rattle.g4_preds.specs.Grammar.{IsOr};
ghost use Rattle.g4_preds.specs.Parsing.{AreNodesOf};
ghost use Rattle.g4_preds.specs.Steps.{state_of, start, waiting, completed, joined, past_test, past_right, operand_step, operator_step, next_step, finished, Takes, Leads};
ghost use Rattle.g4_preds.specs.Tests.{Gives};

use crate::fault::Fault;
use crate::node::{Node, Test};
use crate::operators::{Operator, Pending};
use crate::test_reader::first_test;
use crate::token::Token;
use g4_base::Sequence;
use std::alloc::{AllocError, Global};

/// What is read of a predicate so far.
#[derive(Drop)]
pub struct Parser {
    /// What is complete, in postfix order.
    pub nodes: Vec<Node>,
    pub pending: Pending,
    /// Whether an operand comes next.
    pub wants_operand: bool,
}

impl Parser {
    fn new(alloc: Global) -> Self
        ensures { state_of result ≡ start }
    {
        Parser {
            nodes: Vec::new(alloc),
            pending: Pending::new(alloc),
            wants_operand: true,
        }
    }

    /// Lets the operator wait for its operand.
    fn wait(&mut self, operator: Operator) -> Result<(), AllocError>
        ensures { OnOk result (state_of self.new ≡ waiting operator (state_of self.old)) }
    {
        self.pending.push(operator)?;
        self.wants_operand = true;
        Ok(())
    }

    /// Ends an operand: each `!` and `&&` directly before it takes it.
    fn complete(&mut self) -> Result<(), AllocError>
        ensures { OnOk result (state_of self.new ≡ completed self.old.nodes.items self.old.pending) }
    {
        self.wants_operand = false;
        loop {
            match self.pending.newest() {
                Some(Operator::Negation) => {
                    self.pending.drop_newest();
                    self.nodes.push(Node::Not)?;
                }
                Some(Operator::Conjunction) => {
                    self.pending.drop_newest();
                    self.nodes.push(Node::And)?;
                }
                _ => return Ok(()),
            }
        }
    }

    /// Ends an operand of `||`, which the `||` before it takes.
    fn join(&mut self) -> Result<(), AllocError>
        ensures { OnOk result (state_of self.new ≡ joined (state_of self.old)) }
    {
        match self.pending.newest() {
            Some(Operator::Disjunction) => {
                self.pending.drop_newest();
                self.nodes.push(Node::Or)?;
                Ok(())
            }
            _ => Ok(()),
        }
    }

    /// Goes past a test.
    fn pass_test(&mut self, test: Test) -> Result<(), AllocError>
        ensures { OnOk result (state_of self.new ≡ past_test (state_of self.old) test) }
    {
        self.nodes.push(Node::Operand(test))?;
        self.complete()
    }

    /// Goes past a `)`.
    fn close(&mut self) -> Result<(), Fault>
        ensures { Leads (past_right (state_of self.old)) (state_of self.new) result }
    {
        self.join()?;
        let Some(Operator::Parenthesis) = self.pending.newest() else {
            return Err(Fault::Unknown);
        };
        self.pending.drop_newest();
        self.complete()?;
        Ok(())
    }

    /// Goes past what begins an operand, and answers with how many tokens that is after the first.
    fn pass_operand(&mut self, alloc: Global, tokens: &[Token]) -> Result<usize, Fault>
        ensures step { Takes (operand_step (state_of self.old) tokens.now) (state_of self.new) result }
        ensures within { IfOk result (λ more. more + 1 ≤ length tokens.now) }
    {
        match tokens {
            [Token::Exclamation, ..] => {
                self.wait(Operator::Negation)?;
                Ok(0)
            }
            [Token::LeftParenthesis, ..] => {
                self.wait(Operator::Parenthesis)?;
                Ok(0)
            }
            _ => {
                let found = first_test(alloc, tokens)?;
                self.pass_test(found.test)?;
                Ok(found.more)
            }
        }
    }

    /// Goes past what follows an operand.
    fn pass_operator(&mut self, token: &Token) -> Result<(), Fault>
        ensures { Leads (operator_step (state_of self.old) token.now) (state_of self.new) result }
    {
        match token {
            Token::DoubleAmpersand => {
                self.wait(Operator::Conjunction)?;
                Ok(())
            }
            Token::DoubleBar => {
                self.join()?;
                self.wait(Operator::Disjunction)?;
                Ok(())
            }
            Token::RightParenthesis => self.close(),
            _ => Err(Fault::Unknown),
        }
    }

    /// Goes past the next tokens, and answers with how many that is after the first.
    fn pass(&mut self, alloc: Global, tokens: &[Token]) -> Result<usize, Fault>
        requires { 0 < length tokens.now }
        ensures step { Takes (next_step (state_of self.old) tokens.now) (state_of self.new) result }
        ensures within { IfOk result (λ more. more + 1 ≤ length tokens.now) }
    {
        if self.wants_operand {
            let more = self.pass_operand(alloc, tokens)?;
            Ok(more)
        } else {
            self.pass_operator(&tokens[0])?;
            Ok(0)
        }
    }

    /// The nodes of a predicate that ends here.
    fn finish(self) -> Result<Sequence<Node>, Fault>
        ensures { Gives (finished (state_of self)) result }
    {
        if self.wants_operand {
            return Err(Fault::Unknown);
        }
        let mut last = self;
        last.join()?;
        match last.pending.newest() {
            None => Ok(Sequence::new(last.nodes)),
            Some(_) => Err(Fault::Unknown),
        }
    }
}

/// The nodes, in postfix order, of the predicate that the tokens are.
pub fn parse(alloc: Global, tokens: &[Token]) -> Result<Sequence<Node>, Fault>
    ensures { Answers (AreNodesOf tokens.now) result }
{
    let mut parser = Parser::new(alloc);
    let mut at = 0;
    while at < tokens.len() {
        let more = parser.pass(alloc, &tokens[at..])?;
        at += 1 + more;
    }
    parser.finish()
}
