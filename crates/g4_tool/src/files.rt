// The files of a run, parsed by many workers, and their lines in order.
ghost use Rattle.std.specs.Prelude.{◌≡◌, ◌<◌, ◌≤◌, ◌+◌, ◌++◌, All, IfOk, OnOk, cond, length, true};
ghost use Rattle.g4_learned.specs.Stored.{IsPlan};
ghost use Rattle.g4_load.specs.Usable.{IsUsable};
ghost use Rattle.g4_net.specs.AddedRule.{IsReady};
ghost use Rattle.g4_net.specs.Loops.{HasLoops};
ghost use Rattle.g4_outcome.specs.Grammars.{with_net};
ghost use Rattle.g4_outcome.specs.Inputs.{IsSmall};
ghost use Rattle.g4_pool.specs.Files.{AreReports, Files};
ghost use Rattle.g4_pool.specs.Learned.{HasLearned};
ghost use Rattle.g4_store.specs.Views.{IsWhole};
ghost use Rattle.g4_tool.specs.Files.{AreParsed};
ghost use Rattle.g4_tool.specs.Learned.{IsTold};
ghost use Rattle.g4_words.specs.declared.command.TheConstants.{MOST_FILES, MOST_JOBS, MOST_ROWS};

use g4_base::Text;
use g4_full::Memory;
use g4_learned::{DecisionNet, OpenFault, Opened, Store, open};
use g4_load::Interpreter;
use g4_net::ParserNetwork;
use g4_outcome::{FileReport, Grammar, Input, Line};
use g4_pool::{InputsHome, LexerHome, OwnMatcher, WorkerState, parse_all};
use g4_ports::Gate;
use g4_store::view::Home;
use g4_tally::{Tally, tally_of};
use g4_words::Output;
use std::alloc::{AllocError, Global};
use std::marker::Brand;
use std::sync::Wait;
use std::thread::Threads;

/// The lines of files, and how many of the files were accepted.
#[derive(Drop)]
pub struct Parsed {
    pub lines: Vec<Line>,
    pub accepted: usize,
}

/// The same, and what is told of how much was learned.
#[derive(Drop)]
pub struct ParsedRun {
    pub parsed: Parsed,
    pub learned: Option<Tally>,
}

/// Adds lines.
fn push_lines(lines: &mut Vec<Line>, more: Vec<Line>) -> Result<(), AllocError>
    ensures { OnOk result (lines.new.items ≡ lines.old.items ++ more.items) }
{
    for line in more {
        lines.push(line)?;
    }
    Ok(())
}

/// Adds what is reported of a file.
fn push_report(parsed: &mut Parsed, report: FileReport) -> Result<(), AllocError>
    requires few { parsed.old.accepted < MOST_FILES }
    ensures lines { OnOk result (parsed.new.lines.items ≡ parsed.old.lines.items ++ report.lines.items) }
    ensures accepted { OnOk result (parsed.new.accepted ≡ parsed.old.accepted + cond report.accepted 1 0) }
{
    let FileReport { lines, accepted } = report;
    push_lines(&mut parsed.lines, lines)?;
    if accepted {
        parsed.accepted += 1;
    }
    Ok(())
}

/// What is reported of all files, in order.
fn gather(alloc: Global, reports: Vec<FileReport>) -> Result<Parsed, AllocError>
    requires few { length reports.items ≤ MOST_FILES }
    ensures { (files : Files) → length files.names ≡ length files.inputs → AreReports files reports.items
        → IfOk result (AreParsed files.output files.interpreter files.names files.inputs) }
{
    let mut parsed = Parsed {
        lines: Vec::new(alloc),
        accepted: 0,
    };
    for report in reports {
        push_report(&mut parsed, report)?;
    }
    Ok(parsed)
}

/// How much was learned, if it is asked for. A worker that had no memory for a report takes with it what it has learned.
fn learned_of<B: Home<DecisionNet> + LexerHome>(
    alloc: Global,
    asked: bool,
    complete: bool,
    store: Store<B>,
    state: WorkerState<'_, B>,
) -> Result<Option<Tally>, AllocError>
    requires whole { complete ≡ true → IsWhole state.pass.0 }
    ensures { (files : Files) → files.interpreter.net ≡ B.plan.net.net → (complete ≡ true → HasLearned B.plan files state.entry.pass)
        → IfOk result (IsTold asked B.plan.rows files.interpreter files.inputs) }
{
    if !asked {
        return Ok(None);
    }
    if !complete {
        return Err(AllocError);
    }
    let WorkerState { pass, .. } = state;
    let tally = tally_of(alloc, store, pass)?;
    Ok(Some(tally))
}

/// The lines of the files by a store that was opened.
fn parse_opened<
    B: Home<DecisionNet> + InputsHome + LexerHome + Send + Sync,
    R: Threads + Wait + Sync,
    G: Gate,
>(
    rt: &R,
    alloc: Global,
    output: Output,
    jobs: u32,
    asked: bool,
    grammar: &Grammar,
    opened: Opened,
    names: &[Text],
    inputs: Vec<Input>,
    gate: &G,
) -> Result<ParsedRun, AllocError>
    requires plan { IsPlan opened.plan }
    requires home { (opened.table.shared.table_id ≡ B.table) × (opened.plan ≡ B.plan) }
    requires own { (grammar.now.lexer ≡ B.lexer) × (inputs.items ≡ B.inputs) }
    requires usable { IsUsable (with_net grammar.now B.plan.net.net) }
    requires small { All IsSmall inputs.items }
    requires paired { length names.now ≡ length inputs.items }
    requires few { length names.now ≤ MOST_FILES }
    requires jobs { (0 < jobs) × (jobs ≤ MOST_JOBS) }
    ensures parsed { IfOk result (λ run. AreParsed output (with_net grammar.now B.plan.net.net) names.now inputs.items run.parsed) }
    ensures told { IfOk result (λ run. IsTold asked B.plan.rows (with_net grammar.now B.plan.net.net) inputs.items run.learned) }
{
    let (store, pass) = Store::<B>::named(opened);
    let memory = Memory::new(alloc);
    let matcher = OwnMatcher::new(alloc, &grammar.lexer)?;
    let mut state = WorkerState {
        pass,
        memory,
        matcher,
    };
    let finished = parse_all(
        rt, alloc, output, grammar, &store, &mut state, names, inputs, jobs, gate,
    )?;
    let learned = learned_of(alloc, asked, finished.complete, store, state)?;
    let parsed = gather(alloc, finished.outcomes)?;
    Ok(ParsedRun { parsed, learned })
}

/// A store of the network with room for so many rows, in which nothing is learned yet. There is no memory for one that would be too large.
fn open_store(alloc: Global, net: ParserNetwork, rows: u32) -> Result<Opened, AllocError>
    requires rows { (0 < rows) × (rows ≤ MOST_ROWS) }
    requires ready { IsReady net }
    requires loops { HasLoops net }
    ensures plan { IfOk result (λ o. IsPlan o.plan) }
    ensures parts { IfOk result (λ o. (o.plan.net.net ≡ net) × (o.plan.rows ≡ rows)) }
{
    match open(alloc, net, rows as usize) {
        Ok(opened) => Ok(opened),
        Err(OpenFault::TooLarge) => Err(AllocError),
        Err(OpenFault::NoMemory) => Err(AllocError),
    }
}

/// The lines of the files in order, parsed by so many workers, and how much was learned, if it is asked for. What prediction learns of one
/// file serves the others.
pub fn parse_files<R: Threads + Wait + Sync, G: Gate>(
    rt: &R,
    alloc: Global,
    output: Output,
    jobs: u32,
    rows: u32,
    asked: bool,
    interpreter: Interpreter,
    names: &[Text],
    inputs: Vec<Input>,
    gate: &G,
) -> Result<ParsedRun, AllocError>
    requires usable { IsUsable interpreter }
    requires small { All IsSmall inputs.items }
    requires paired { length names.now ≡ length inputs.items }
    requires few { length names.now ≤ MOST_FILES }
    requires jobs { (0 < jobs) × (jobs ≤ MOST_JOBS) }
    requires rows { (0 < rows) × (rows ≤ MOST_ROWS) }
    ensures parsed { IfOk result (λ run. AreParsed output interpreter names.now inputs.items run.parsed) }
    ensures told { IfOk result (λ run. IsTold asked rows interpreter inputs.items run.learned) }
{
    let Interpreter {
        names: rule_names,
        rules,
        predicates,
        flags,
        shown,
        lexer,
        net,
    } = interpreter;
    let grammar = Grammar {
        names: rule_names,
        rules,
        predicates,
        flags,
        shown,
        lexer,
    };
    let opened = open_store(alloc, net, rows)?;
    parse_opened::<Brand, R, G>(
        rt, alloc, output, jobs, asked, &grammar, opened, names, inputs, gate,
    )
}
