// The report of a command line: its lines and its status, made before any of it is written.
ghost use Rattle.std.specs.Prelude.{◌≡◌, ◌<◌, ◌≤◌, ◌⊎◌, ◌++◌, ℕ, List, IfOk, OnOk, MatchResult, Some, Err, length, map, option_map, string_bytes};
ghost use Rattle.g4_load.specs.Counting.{Counts};
ghost use Rattle.g4_tool.specs.Counting.{ReportCounts};
ghost use Rattle.g4_tool.specs.Ends.{IsNoCommand, checked, listed, stopped};
ghost use Rattle.g4_tool.specs.Learned.{learned_lines};
ghost use Rattle.g4_fetch.specs.Files.{Files};
ghost use Rattle.g4_tool.specs.Report.{ReportsOrHalts, IsDoneOrRefused, IsReport, IsReportOf, IsReportOfFiles};
ghost use Rattle.g4_words.specs.Commands.{IsCommand};
ghost use Rattle.g4_words.specs.declared.command.Command.TheVariants as commands;
ghost use Rattle.g4_words.specs.declared.command.TheConstants.{MOST_FILES, MOST_JOBS, MOST_ROWS};

use crate::cells::check_cells;
use crate::files::{Parsed, ParsedRun, parse_files};
use crate::inputs::fetch_all;
use crate::status::Status;
use crate::stop::{line_of, status_of};
use g4_base::{Octets, Sequence, Text};
use g4_load::{Halt, Loaded, Stop, build_interpreter, list_named, load};
use g4_outcome::Line;
use g4_ports::{Gate, Shelf};
use g4_tally::{Tally, tally_line};
use g4_words::{Atn, Check, Command, Parse, WordsFault, read_words};
use std::alloc::{AllocError, Global};
use std::sync::Wait;
use std::thread::Threads;

/// What a run writes, and how it ends where nothing fails.
#[derive(Drop)]
pub struct Report {
    pub lines: Sequence<Line>,
    pub status: Status,
}

/// Why there is no report.
#[derive(Drop)]
pub enum Stopped {
    /// A fetch failed.
    Failed,
    NoMemory,
}

impl From<AllocError> for Stopped {
    ghost use Rattle.std.specs.Prelude.{◌≡◌};
    ghost use Rattle.g4_tool.specs.declared.report.Stopped.TheVariants.{NoMemory};

    ghost from_gives = { λ _ e. e ≡ NoMemory };

    fn from(_: AllocError) -> Self {
        Stopped::NoMemory
    }
}

/// The report of a command line that stops before any file is parsed.
fn report_stop(alloc: Global, stop: &Stop) -> Result<Report, AllocError>
    ensures { IfOk result (IsReportOf (stopped stop.now)) }
{
    let line = line_of(alloc, stop)?;
    Ok(Report {
        lines: Sequence::new(vec![in alloc; line]?),
        status: status_of(stop),
    })
}

/// Adds what is told of how much was learned.
fn push_learned(
    alloc: Global,
    lines: &mut Vec<Line>,
    learned: Option<Tally>,
) -> Result<(), AllocError>
    ensures { OnOk result (lines.new.items ≡ lines.old.items ++ learned_lines learned) }
{
    match learned {
        Some(tally) => {
            let line = tally_line(alloc, &tally)?;
            lines.push(Line::ToOut(Sequence::new(line.into_bytes())))?;
            Ok(())
        }
        None => Ok(()),
    }
}

/// The report of so many files.
fn report_files(alloc: Global, run: ParsedRun, files: usize) -> Result<Report, AllocError>
    ensures report { IfOk result (IsReportOfFiles run.parsed run.learned files) }
    ensures status { IfOk result (λ report. IsDoneOrRefused report.status) }
{
    let ParsedRun { parsed, learned } = run;
    let Parsed {
        mut lines,
        accepted,
    } = parsed;
    let closing = format!(in alloc; "files {files} accepted {accepted}\n")?;
    lines.push(Line::ToOut(Sequence::new(closing.into_bytes())))?;
    push_learned(alloc, &mut lines, learned)?;
    let status = if accepted == files {
        Status::Done
    } else {
        Status::Refused
    };
    Ok(Report {
        lines: Sequence::new(lines),
        status,
    })
}

/// The report of a grammar that is checked: how many parser rules it has, and its greatest token type.
fn report_checked(alloc: Global, grammar: &Loaded) -> Result<Report, AllocError>
    ensures { IfOk result (IsReportOf (checked grammar.now)) }
{
    let rules = grammar.rules.as_slice().len();
    let types = grammar.shown.len();
    let line = format!(in alloc; "rules {rules} tokens {types}\n")?;
    let line = Line::ToOut(Sequence::new(line.into_bytes()));
    Ok(Report {
        lines: Sequence::new(vec![in alloc; line]?),
        status: Status::Done,
    })
}

/// A name in place, if there is one.
fn named(name: &Option<Text>) -> Option<&str>
    ensures { option_map (λ n. n.now) result ≡ name.now }
{
    match name {
        Some(name) => Some(name.as_str()),
        None => None,
    }
}

/// The report of `check`, or why there is none.
fn run_check<S: Shelf>(alloc: Global, shelf: &mut S, check: &Check) -> Result<Report, Halt>
    ensures keeps { S.told shelf.new ≡ S.told shelf.old }
    ensures content { (files : Files) (words : List (List ℕ)) → S.told shelf.old ≡ Some files → IsCommand words (commands.Check check.now)
        → ReportsOrHalts files words result }
    ensures status { IfOk result (λ report. IsDoneOrRefused report.status) }
    ensures counts { Counts ⊥ (S.faults shelf.old) (S.faults shelf.new) (S.misses shelf.old) (S.misses shelf.new) result }
{
    let name = check.grammar.as_str();
    let library = named(&check.library);
    let grammar = load(alloc, shelf, library, name)?;
    let report = report_checked(alloc, &grammar)?;
    Ok(report)
}

/// The report of the listing of a rule.
fn report_listed(alloc: Global, listing: Octets) -> Result<Report, AllocError>
    ensures { IfOk result (IsReportOf (listed listing)) }
{
    let line = Line::ToOut(listing);
    Ok(Report {
        lines: Sequence::new(vec![in alloc; line]?),
        status: Status::Done,
    })
}

/// The report of `atn`, or why there is none.
fn run_atn<S: Shelf>(alloc: Global, shelf: &mut S, atn: &Atn) -> Result<Report, Halt>
    ensures keeps { S.told shelf.new ≡ S.told shelf.old }
    ensures content { (files : Files) (words : List (List ℕ)) → S.told shelf.old ≡ Some files → IsCommand words (commands.Atn atn.now)
        → ReportsOrHalts files words result }
    ensures status { IfOk result (λ report. IsDoneOrRefused report.status) }
    ensures counts { Counts ⊥ (S.faults shelf.old) (S.faults shelf.new) (S.misses shelf.old) (S.misses shelf.new) result }
{
    let name = atn.grammar.as_str();
    let rule = atn.rule.as_str();
    let library = named(&atn.library);
    let listing = list_named(alloc, shelf, library, name, rule)?;
    let report = report_listed(alloc, listing)?;
    Ok(report)
}

/// The same names.
fn copied(alloc: Global, names: &[Text]) -> Result<Sequence<Text>, AllocError>
    ensures { IfOk result (λ made. made ≡ names.now) }
{
    let mut made = Vec::new(alloc);
    for name in names {
        made.push(Text::copy_of(alloc, name.as_str())?)?;
    }
    Ok(Sequence::new(made))
}

/// The report of `parse`, or why there is none.
fn run_parse<R: Threads + Wait + Sync, S: Shelf, G: Gate>(
    rt: &R,
    alloc: Global,
    shelf: &mut S,
    parse: &Parse,
    gate: &G,
) -> Result<Report, Halt>
    requires few { length parse.now.files ≤ MOST_FILES }
    requires jobs { (0 < parse.now.jobs) × (parse.now.jobs ≤ MOST_JOBS) }
    requires rows { (0 < parse.now.rows) × (parse.now.rows ≤ MOST_ROWS) }
    ensures keeps { S.told shelf.new ≡ S.told shelf.old }
    ensures content { (files : Files) (words : List (List ℕ)) → S.told shelf.old ≡ Some files → IsCommand words (commands.Parse parse.now)
        → ReportsOrHalts files words result }
    ensures status { IfOk result (λ report. IsDoneOrRefused report.status) }
    ensures counts { Counts ⊥ (S.faults shelf.old) (S.faults shelf.new) (S.misses shelf.old) (S.misses shelf.new) result }
{
    let grammar = parse.grammar.as_str();
    let start = parse.start.as_str();
    let library = named(&parse.library);
    let interpreter = build_interpreter(alloc, shelf, library, grammar, start)?;
    check_cells(alloc, grammar, parse.rows, &interpreter)?;
    let names = parse.files.as_slice();
    let inputs = fetch_all(alloc, shelf, names)?;
    let flags = copied(alloc, parse.flags.as_slice())?;
    let flagged = interpreter.with_flags(flags);
    let parsed = parse_files(
        rt,
        alloc,
        parse.output,
        parse.jobs,
        parse.rows,
        parse.learned,
        flagged,
        names,
        inputs,
        gate,
    )?;
    let report = report_files(alloc, parsed, names.len())?;
    Ok(report)
}

/// The report of the words that no fault stops, or why there is none.
fn run_words<R: Threads + Wait + Sync, S: Shelf, G: Gate>(
    rt: &R,
    alloc: Global,
    shelf: &mut S,
    words: &[String],
    gate: &G,
) -> Result<Report, Halt>
    ensures keeps { S.told shelf.new ≡ S.told shelf.old }
    ensures content { (files : Files) → S.told shelf.old ≡ Some files → ReportsOrHalts files (map string_bytes words.now) result }
    ensures usage { IsNoCommand (map string_bytes words.now) → (result ≡ Err (Halt.Stop Stop.Usage)) ⊎ (result ≡ Err Halt.NoMemory) }
    ensures status { IfOk result (λ report. IsDoneOrRefused report.status) }
    ensures counts { Counts (IsNoCommand (map string_bytes words.now))
        (S.faults shelf.old) (S.faults shelf.new) (S.misses shelf.old) (S.misses shelf.new) result }
{
    match read_words(alloc, words) {
        Ok(Command::Check(check)) => run_check(alloc, shelf, &check),
        Ok(Command::Atn(atn)) => run_atn(alloc, shelf, &atn),
        Ok(Command::Parse(parse)) => run_parse(rt, alloc, shelf, &parse, gate),
        Err(WordsFault::Usage) => Err(Halt::Stop(Stop::Usage)),
        Err(WordsFault::NoMemory) => Err(Halt::NoMemory),
    }
}

/// The report of the words, unless a fetch or memory fails.
#[tactic(auto, using(crate::proofs::Reports::reports_stop))]
pub fn make_report<R: Threads + Wait + Sync, S: Shelf, G: Gate>(
    rt: &R,
    alloc: Global,
    shelf: &mut S,
    words: &[String],
    gate: &G,
) -> Result<Report, Stopped>
    ensures keeps { S.told shelf.new ≡ S.told shelf.old }
    ensures content { (files : Files) → S.told shelf.old ≡ Some files → IfOk result (IsReport files (map string_bytes words.now)) }
    ensures usage { IsNoCommand (map string_bytes words.now)
        → MatchResult result (λ report. report.status ≡ Status.Usage) (λ stopped. stopped ≡ Stopped.NoMemory) }
    ensures counts { ReportCounts (IsNoCommand (map string_bytes words.now))
        (S.faults shelf.old) (S.faults shelf.new) (S.misses shelf.old) (S.misses shelf.new) result }
{
    match run_words(rt, alloc, shelf, words, gate) {
        Ok(report) => Ok(report),
        Err(Halt::Stop(stop)) => {
            let report = report_stop(alloc, &stop)?;
            Ok(report)
        }
        Err(Halt::Failed) => Err(Stopped::Failed),
        Err(Halt::NoMemory) => Err(Stopped::NoMemory),
    }
}
