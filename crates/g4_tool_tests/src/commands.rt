// Runs over files in memory: what is fetched, what is written, and what comes after a fetch or a put that fails.
use g4_base::{Sequence, Text};
use g4_ports::{Gate, MemFile, MemShelf, MemSink};
use g4_tool::{Status, run};
use std::alloc::{AllocError, Global};
use std::fmt::Write;
use std::sync::Wait;
use std::sync::atomic::{AtomicU32, Ordering};
use std::test::Fail;
use std::thread::Threads;

/// The files that there are: two grammars, of which the second has a fault, one that imports the first twice and itself, and a text.
const FILES: &str = "X.g4 = grammar X; r : 'hello' ID ; ID : [a-z]+ ; WS : [ ] -> skip ;
Z.g4 = grammar Z; r : ;;
M.g4 = grammar M; import X, X; import M; s : r ;
f = hello x";

/// Adds the file of a line.
fn push_file(alloc: Global, files: &mut Vec<MemFile>, line: &str) -> Result<(), AllocError> {
    let (name, content) = line.split_once(" = ").unwrap_or((line, ""));
    let name = Text::copy_of(alloc, name)?;
    let bytes = Sequence::new(content.as_bytes().to_vec(alloc)?);
    files.push(MemFile { name, bytes })?;
    Ok(())
}

/// The call that fails, by its number from 0 on; `-` where none does.
fn failing(alloc: Global, number: &str) -> Result<Vec<u64>, AllocError> {
    match number.parse::<u64>() {
        Ok(number) => Ok(vec![in alloc; number]?),
        Err(_) => Ok(Vec::new(alloc)),
    }
}

/// The files, of which one fetch fails.
fn shelf_of(alloc: Global, fetch: &str) -> Result<MemShelf, AllocError> {
    let mut files = Vec::new(alloc);
    for line in FILES.lines() {
        push_file(alloc, &mut files, line)?;
    }
    Ok(MemShelf::new(files, failing(alloc, fetch)?))
}

fn words_of(alloc: Global, line: &str) -> Result<Vec<String>, AllocError> {
    let mut words = Vec::new(alloc);
    for word in line.split_whitespace() {
        words.push(String::from_str(alloc, word)?)?;
    }
    Ok(words)
}

/// How often a file was begun, and how often one was ended.
#[derive(Drop)]
struct Counting {
    entered: AtomicU32,
    left: AtomicU32,
}

impl Gate for Counting {
    fn enter(&self, _worker: u32, _file: u32) {
        self.entered.fetch_add(1, Ordering::SeqCst);
    }

    fn leave(&self, _worker: u32, _file: u32) {
        self.left.fetch_add(1, Ordering::SeqCst);
    }
}

/// What a run is given, and what has come of it.
#[derive(Drop)]
struct Ends {
    shelf: MemShelf,
    out: MemSink,
    err: MemSink,
    gate: Counting,
}

/// An output of which one put fails. Each put takes 100 bytes.
fn sink_of(alloc: Global, put: &str) -> Result<MemSink, AllocError> {
    let failing = failing(alloc, put)?;
    MemSink::new(alloc, 200, failing, 100)
}

/// A source of which a fetch fails, and outputs of which a put on out fails.
fn ends_of(alloc: Global, fetch: &str, put: &str) -> Result<Ends, AllocError> {
    let shelf = shelf_of(alloc, fetch)?;
    let out = sink_of(alloc, put)?;
    let err = sink_of(alloc, "-")?;
    let gate = Counting {
        entered: AtomicU32::new(0),
        left: AtomicU32::new(0),
    };
    Ok(Ends {
        shelf,
        out,
        err,
        gate,
    })
}

/// How many files were begun and ended, the status, how many files were fetched, and the puts on out and on err.
fn counts(alloc: Global, status: Status, ends: &Ends) -> Result<String, AllocError> {
    let entered = ends.gate.entered.load(Ordering::SeqCst);
    let left = ends.gate.left.load(Ordering::SeqCst);
    let fetches = ends.shelf.calls;
    let puts = ends.out.calls();
    let others = ends.err.calls();
    format!(in alloc; "{entered} begun {left} ended: {status:?} {fetches} {puts} {others} ")
}

/// These counts, and what out has, where a `%` ends a line.
fn shown(alloc: Global, status: Status, ends: &Ends) -> Result<String, AllocError> {
    let mut shown = counts(alloc, status, ends)?;
    let written = str::from_utf8(ends.out.bytes()).unwrap_or("no text");
    for character in written.chars() {
        shown.push(if character == '\n' { '%' } else { character })?;
    }
    Ok(shown)
}

/// The status of a run.
fn status_of<R: Threads + Wait + Sync>(
    rt: &R,
    alloc: Global,
    words: &[String],
    ends: &mut Ends,
) -> Status {
    let Ends {
        shelf,
        out,
        err,
        gate,
    } = ends;
    run(rt, alloc, words, shelf, out, err, gate)
}

/// What a run gives, where a fetch and a put on out fail.
fn found<R: Threads + Wait + Sync>(
    rt: &R,
    alloc: Global,
    line: &str,
    fetch: &str,
    put: &str,
) -> Result<String, AllocError> {
    let words = words_of(alloc, line)?;
    let mut ends = ends_of(alloc, fetch, put)?;
    let status = status_of(rt, alloc, words.as_slice(), &mut ends);
    shown(alloc, status, &ends)
}

/// Words, the number of the fetch that fails, and that of the put on out; and what comes: how many files were begun and ended, the
/// status, the fetches, the puts on out and on err, and what out has. The grammar is fetched first, each of its files once, and nothing is
/// written before all files are fetched; after a failure nothing more is fetched or written.
const RUNS: &str =
    "parse -g X.g4 -s r f f f | - | - => 3 begun 3 ended: Done 4 4 0 f: (r hello x)%f: (r hello x)%f: (r hello x)%files 3 accepted 3%
parse -g X.g4 -s r f f | 0 | - => 0 begun 0 ended: Unread 1 0 0
parse -g X.g4 -s r f f | 1 | - => 0 begun 0 ended: Unread 2 0 0
parse -g X.g4 -s r f f | 2 | - => 0 begun 0 ended: Unread 3 0 0
parse -g X.g4 -s r f f | - | 0 => 2 begun 2 ended: Unwritten 3 1 0
parse -g X.g4 -s r f f | - | 1 => 2 begun 2 ended: Unwritten 3 2 0 f: (r hello x)%
parse -g X.g4 -s r f f | - | 2 => 2 begun 2 ended: Unwritten 3 3 0 f: (r hello x)%f: (r hello x)%
parse -g X.g4 -s r | - | - => 0 begun 0 ended: Usage 0 0 1
parse -g Y.g4 -s r f f | - | - => 0 begun 0 ended: Unread 1 0 1
parse -g Z.g4 -s r f f | - | - => 0 begun 0 ended: GrammarRefused 1 0 1
parse -g X.g4 -s r f g f | - | - => 0 begun 0 ended: Unread 3 0 1
check X.g4 | - | - => 0 begun 0 ended: Done 1 1 0 rules 1 tokens 3%
check M.g4 | - | - => 0 begun 0 ended: Done 2 1 0 rules 2 tokens 3%
check M.g4 | 1 | - => 0 begun 0 ended: Unread 2 0 0
check X.g4 f | - | - => 0 begun 0 ended: Usage 0 0 1
atn X.g4 r | - | 0 => 0 begun 0 ended: Unwritten 1 1 0";

/// Adds a row of which something else comes.
fn push_other<R: Threads + Wait + Sync>(
    rt: &R,
    alloc: Global,
    all: &mut String,
    row: &str,
) -> Result<(), AllocError> {
    let (asked, wanted) = row.split_once(" => ").unwrap_or((row, ""));
    let (line, calls) = asked.split_once(" | ").unwrap_or((asked, ""));
    let (fetch, put) = calls.split_once(" | ").unwrap_or((calls, ""));
    let found = found(rt, alloc, line, fetch, put)?;
    if found.trim_end() != wanted {
        write!(all, "\n{row}\n  is {found}")?;
    }
    Ok(())
}

#[test]
fn runs(rt: HostRuntime) -> Result<(), Fail> {
    let mut wrong = String::new(rt.alloc());
    for row in RUNS.lines() {
        push_other(&rt, rt.alloc(), &mut wrong, row)?;
    }
    assert_eq!(rt; wrong.as_str(), "");
    Ok(())
}
