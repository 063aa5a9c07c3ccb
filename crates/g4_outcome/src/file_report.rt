// What is reported of a file.
ghost use Rattle.std.specs.Prelude.{◌≡◌, IfOk};
ghost use Rattle.g4_lexer.specs.Lexers.{matched_by};
ghost use Rattle.g4_load.specs.Usable.{IsUsable};
ghost use Rattle.g4_outcome.specs.Grammars.{with_net};
ghost use Rattle.g4_outcome.specs.Inputs.{IsSmall};
ghost use Rattle.g4_outcome.specs.Reported.{IsFileReport};
ghost use Rattle.g4_outcome.specs.Taught.{HasTaught};

use crate::grammar::Grammar;
use crate::input::Input;
use crate::line::Line;
use crate::outcome::{is_accepted, outcome_of};
use crate::outcome_lines::push_outcome;
use g4_full::Memory;
use g4_learned::{DecisionNet, Pass, Store};
use g4_lexer::Matcher;
use g4_store::steps::Steps;
use g4_store::view::Home;
use g4_words::Output;
use std::alloc::{AllocError, Global};
use std::sync::Wait;
use std::sync::ledger::Ledger;

/// The lines of a file, and whether it is accepted.
#[derive(Drop)]
pub struct FileReport {
    pub lines: Vec<Line>,
    pub accepted: bool,
}

/// What is reported of a file of this name, whose tokens are found by a matcher of the grammar's lexer. Its tokens and its tree are given
/// back as soon as its lines are made. What SLL looks at in the run over its tokens is learned then, as far as the store has room.
///
/// # Errors
/// No memory.
pub fn report_file<B: Home<DecisionNet>, R: Wait, L: Ledger>(
    rt: &R,
    alloc: Global,
    output: Output,
    grammar: &Grammar,
    store: &Store<B>,
    pass: &mut Pass<B>,
    memory: &mut Memory<B>,
    matcher: &mut Matcher<'_>,
    name: &str,
    input: Input,
    steps: &mut Steps<L>,
) -> Result<FileReport, AllocError>
    requires own { matcher.old ≡ matched_by grammar.now.lexer }
    requires usable { IsUsable (with_net grammar.now B.plan.net.net) }
    requires small { IsSmall input }
    ensures own { matcher.new ≡ matched_by grammar.now.lexer }
    ensures report { IfOk result (IsFileReport output (with_net grammar.now B.plan.net.net) name.now input) }
    ensures taught { IfOk result (λ _. HasTaught B.plan (with_net grammar.now B.plan.net.net) input pass.old pass.new) }
{
    let outcome = outcome_of(
        rt, alloc, grammar, store, pass, memory, matcher, input, steps,
    )?;
    let net = store.net().net();
    let mut lines = Vec::new(alloc);
    push_outcome(&mut lines, alloc, output, grammar, net, name, &outcome)?;
    Ok(FileReport {
        lines,
        accepted: is_accepted(&outcome),
    })
}
