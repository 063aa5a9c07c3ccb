// From a grammar without fault to its network, and to what parses with it.
ghost use Rattle.std.specs.Prelude.{◌≡◌, IfOk, Some, option_map};
ghost use Rattle.g4_load.specs.Building.{Builds, FromGrammar, Lays, names_of};
ghost use Rattle.g4_load.specs.Counting.{Counts};
ghost use Rattle.g4_fetch.specs.Files.{Files};
ghost use Rattle.g4_load.specs.Stages.{AfterFetches, GivesOrHalts, IsAnswerOf};
ghost use Rattle.g4_load.specs.Usable.{IsParsing, IsUsable, with_flags};

use crate::fault::{CheckError, not_built};
use crate::loading::{Loaded, load};
use crate::stop::{Halt, fault_of};
use g4_base::{Sequence, Text};
use g4_build::build;
use g4_grammar::{ParserRules, StepRule};
use g4_leftrec::rewrite;
use g4_lexer::Lexer;
use g4_lexer_rules::build_lexer;
use g4_net::ParserNetwork;
use g4_ports::Shelf;
use g4_preds::Predicate;
use std::alloc::{AllocError, Global};

/// What files are parsed with: a grammar's lexer, and the network of one of its rules.
#[derive(Drop)]
pub struct Interpreter {
    /// The names of the parser rules, which count from 1.
    pub names: Sequence<Text>,
    /// The parser rules as they are written, with what their atoms are in a network.
    pub rules: ParserRules,
    /// The predicates of the parser rules, by their numbers.
    pub predicates: Sequence<Predicate>,
    /// The flags that its predicates find given: none at first.
    pub flags: Sequence<Text>,
    /// What is shown of each token type from 1 on.
    pub shown: Sequence<Text>,
    pub lexer: Lexer,
    pub net: ParserNetwork,
}

impl Interpreter {
    /// The same with these flags given.
    pub fn with_flags(self, flags: Sequence<Text>) -> Interpreter
        ensures same { result ≡ with_flags flags self }
        ensures usable { IsUsable self → IsUsable result }
    {
        Interpreter {
            names: self.names,
            rules: self.rules,
            predicates: self.predicates,
            flags,
            shown: self.shown,
            lexer: self.lexer,
            net: self.net,
        }
    }
}

/// The names of the rules in order.
pub(crate) fn names_of(alloc: Global, rules: &[StepRule]) -> Result<Sequence<Text>, AllocError>
    ensures { IfOk result (λ names. names ≡ names_of rules.now) }
{
    let mut names = Vec::new(alloc);
    for rule in rules {
        names.push(Text::copy_of(alloc, rule.name.as_str())?)?;
    }
    Ok(Sequence::new(names))
}

/// The network of the rules from this start rule, or the first fault of that.
pub(crate) fn lay(
    alloc: Global,
    rules: &ParserRules,
    start: &str,
) -> Result<ParserNetwork, CheckError>
    ensures laid { IsAnswerOf (Lays start.now rules.now) result }
    ensures parsing { IfOk result (IsParsing rules.now) }
{
    let laid = rewrite(alloc, rules)?;
    match build(alloc, &laid, start) {
        Ok(net) => Ok(net),
        Err(fault) => Err(not_built(alloc, start, fault)?),
    }
}

/// What parses with the grammar from this start rule, or the first fault of its networks.
fn interpret(alloc: Global, grammar: Loaded, start: &str) -> Result<Interpreter, CheckError>
    ensures interpreting { IsAnswerOf (FromGrammar start.now grammar) result }
    ensures usable { IfOk result IsUsable }
{
    let Loaded {
        rules,
        predicates,
        shown,
        lexer,
    } = grammar;
    let names = names_of(alloc, rules.as_slice())?;
    let net = lay(alloc, &rules, start)?;
    let lexer = build_lexer(alloc, lexer)?;
    Ok(Interpreter {
        names,
        rules,
        predicates,
        flags: Sequence::new(Vec::new(alloc)),
        shown,
        lexer,
        net,
    })
}

/// What parses from this start rule with the grammar in the file of this name, with all that it imports from the library, or else from
/// the folder of that file.
///
/// # Errors
/// The first file that is absent or too large, the first fault of the grammar or of its networks, a fetch that failed, or no memory.
pub fn build_interpreter<S: Shelf>(
    alloc: Global,
    shelf: &mut S,
    library: Option<&str>,
    name: &str,
    start: &str,
) -> Result<Interpreter, Halt>
    ensures keeps { S.told shelf.new ≡ S.told shelf.old }
    ensures content { (files : Files) → S.told shelf.old ≡ Some files
        → GivesOrHalts (AfterFetches (Builds files (option_map (λ l. l.now) library.entry) name.now start.now)) result }
    ensures usable { IfOk result IsUsable }
    ensures counts { Counts ⊥ (S.faults shelf.old) (S.faults shelf.new) (S.misses shelf.old) (S.misses shelf.new) result }
{
    let grammar = load(alloc, shelf, library, name)?;
    match interpret(alloc, grammar, start) {
        Ok(interpreter) => Ok(interpreter),
        Err(CheckError::Fault(fault)) => Err(Halt::Stop(fault_of(alloc, name, fault)?)),
        Err(CheckError::NoMemory) => Err(Halt::NoMemory),
    }
}
