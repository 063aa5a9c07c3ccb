// Many files in memory, and whether a run over them writes what it is to write.
use g4_base::{Sequence, Text};
use g4_ports::{Gate, MemFile, MemShelf, MemSink};
use g4_tool::{Status, run};
use std::alloc::{AllocError, Global};
use std::fmt::Write;
use std::sync::Wait;
use std::thread::Threads;

/// A grammar of any number of letters.
const LETTERS: &str = "grammar R; r : 'a'* ;";

/// Room for what is written.
const ROOM: usize = 1 << 22;

/// A file of this name and content.
fn file_of(alloc: Global, name: &str, content: &str) -> Result<MemFile, AllocError> {
    let name = Text::copy_of(alloc, name)?;
    let bytes = Sequence::new(content.as_bytes().to_vec(alloc)?);
    Ok(MemFile { name, bytes })
}

/// So many letters `a`.
fn letters(alloc: Global, count: usize) -> Result<String, AllocError> {
    let mut text = String::new(alloc);
    for _ in 0..count {
        text.push('a')?;
    }
    Ok(text)
}

/// The grammar, and a file for each of these numbers, of so many letters.
fn shelf_of(alloc: Global, lengths: &[usize]) -> Result<MemShelf, AllocError> {
    let mut all = Vec::new(alloc);
    all.push(file_of(alloc, "R.g4", LETTERS)?)?;
    for (file, length) in lengths.iter().enumerate() {
        let name = format!(in alloc; "f{file}")?;
        let content = letters(alloc, *length)?;
        all.push(file_of(alloc, name.as_str(), content.as_str())?)?;
    }
    Ok(MemShelf::new(all, Vec::new(alloc)))
}

/// The words that parse so many files by so many workers, and tell how much was learned.
fn words_of(alloc: Global, files: usize, jobs: u32) -> Result<Vec<String>, AllocError> {
    let options = format!(in alloc; "parse -g R.g4 -s r --learned -j {jobs}")?;
    let mut words = Vec::new(alloc);
    for word in options.as_str().split_whitespace() {
        words.push(String::from_str(alloc, word)?)?;
    }
    for file in 0..files {
        words.push(format!(in alloc; "f{file}")?)?;
    }
    Ok(words)
}

/// So many letters, each after a space.
fn push_letters(text: &mut String, count: usize) -> Result<(), AllocError> {
    for _ in 0..count {
        text.push_str(" a")?;
    }
    Ok(())
}

/// What out is to have then.
fn wanted(alloc: Global, lengths: &[usize]) -> Result<String, AllocError> {
    let mut text = String::new(alloc);
    for (file, length) in lengths.iter().enumerate() {
        if *length == 0 {
            write!(text, "f{file}: r\n")?;
        } else {
            write!(text, "f{file}: (r")?;
            push_letters(&mut text, *length)?;
            text.push_str(")\n")?;
        }
    }
    let files = lengths.len();
    write!(
        text,
        "files {files} accepted {files}\nlearned 2 rows 4 edges\n"
    )?;
    Ok(text)
}

/// Whether a run with this gate writes what is wanted.
pub fn writes_all<R: Threads + Wait + Sync, G: Gate>(
    rt: &R,
    alloc: Global,
    lengths: &[usize],
    jobs: u32,
    gate: &G,
) -> Result<bool, AllocError> {
    let mut shelf = shelf_of(alloc, lengths)?;
    let mut out = MemSink::new(alloc, ROOM, Vec::new(alloc), ROOM)?;
    let mut err = MemSink::new(alloc, 200, Vec::new(alloc), 200)?;
    let words = words_of(alloc, lengths.len(), jobs)?;
    let status = run(
        rt,
        alloc,
        words.as_slice(),
        &mut shelf,
        &mut out,
        &mut err,
        gate,
    );
    let wanted = wanted(alloc, lengths)?;
    Ok(status == Status::Done && out.bytes() == wanted.as_bytes() && err.bytes().is_empty())
}
