// Schedules of three workers.
ghost use Rattle.std.specs.Prelude.{◌≡◌, IfOk};
ghost use Rattle.g4_core_tests.specs.Numbers.{AreAlong, FilesAreAlong, IsOne};

use crate::numbers::{Number, Numbers, path_along};
use g4_base::Sequence;
use g4_core::{Core, Event};
use g4_store::automaton::Plan;
use g4_store::path::Path;
use std::alloc::{AllocError, Global};
use std::fmt::Write;
use std::test::Fail;

/// A file of questions: each has a start, a digit, and then digits of columns.
fn file_of(alloc: Global, text: &str) -> Result<Sequence<Path<Number>>, AllocError>
    ensures { IfOk result AreAlong }
{
    let mut paths = Vec::new(alloc);
    for question in text.split(' ') {
        let path = question_of(alloc, question.as_bytes())?;
        paths.push(path)?;
    }
    Ok(Sequence::new(paths))
}

/// The question of a start and digits.
fn question_of(alloc: Global, text: &[u8]) -> Result<Path<Number>, AllocError>
    ensures { IfOk result IsOne }
{
    match text {
        [first, digits @ ..] => path_along(alloc, *first as u32 % 8, digits),
        [] => path_along(alloc, 0, text),
    }
}

/// Files, which commas separate.
fn files_of(alloc: Global, text: &str) -> Result<Sequence<Sequence<Path<Number>>>, AllocError>
    ensures { IfOk result FilesAreAlong }
{
    let mut files = Vec::new(alloc);
    for file in text.split(',') {
        let paths = file_of(alloc, file)?;
        files.push(paths)?;
    }
    Ok(Sequence::new(files))
}

/// The event of a letter, the worker's digit and, for a claim, the file's.
fn event_of(text: &str) -> Option<Event> {
    match text.as_bytes() {
        [b'c', worker, file] => Some(Event::Claim(digit(*worker), digit(*file))),
        [b'p', worker] => Some(Event::Probe(digit(*worker))),
        [b'r', worker] => Some(Event::LearnRow(digit(*worker))),
        [b'l', worker] => Some(Event::LearnCell(digit(*worker))),
        [b'f', worker] => Some(Event::Finish(digit(*worker))),
        _ => None,
    }
}

fn digit(byte: u8) -> usize {
    (byte % 16) as usize
}

/// What each event of a schedule comes to: `+` where it is enabled.
fn run(alloc: Global, files: &str, rows: usize, schedule: &str) -> Result<String, Fail> {
    if rows > 1_000 {
        return Err(Fail::from("many rows"));
    }
    let plan = Plan {
        rows,
        columns: 10,
        starts: 8,
        net: 0u32,
    };
    let found = files_of(alloc, files)?;
    let mut core = Core::<u32, Number, Numbers>::open(alloc, plan, found, 3)?;
    let mut shown = String::new(alloc);
    for text in schedule.split(' ') {
        let Some(event) = event_of(text) else {
            return Err(Fail::from("no event"));
        };
        shown.push(if core.step(alloc, event).is_ok() {
            '+'
        } else {
            '-'
        })?;
    }
    Ok(shown)
}

/// Files, rows, a schedule, and which of its events are enabled.
const TABLE: &str = "11,11 | 9 | c00 p0 p0 r0 r0 r0 l0 l0 l0 l0 p0 f0 => ++-++-+++--+
11,11 | 9 | c00 c10 c11 p0 p1 r0 r1 l1 r0 l0 l0 l0 l1 r1 f0 f1 => +-++++--++++--++
11 | 1 | c00 p0 r0 r0 l0 l0 f0 f0 => +++-+-+-";

fn push_other(alloc: Global, all: &mut String, row: &str) -> Result<(), Fail> {
    let (asked, wanted) = row.split_once(" => ").unwrap_or((row, ""));
    let (front, schedule) = asked.rsplit_once(" | ").unwrap_or((asked, ""));
    let (files, number) = front.rsplit_once(" | ").unwrap_or((front, ""));
    let rows = number.parse::<usize>().unwrap_or(1);
    let shown = run(alloc, files, rows, schedule)?;
    if shown.as_str() != wanted {
        write!(all, "\n{row}\n  is {shown}")?;
    }
    Ok(())
}

/// Whether one worker claims a file and finishes it.
fn finishes(alloc: Global, core: &mut Core<u32, Number, Numbers>, file: usize) -> bool {
    if core.step(alloc, Event::Claim(0, file)).is_err() {
        return false;
    }
    for _ in 0..10_000 {
        if core.step(alloc, Event::Finish(0)).is_ok() {
            return true;
        }
        let moves = core.step(alloc, Event::Probe(0)).is_ok()
            || core.step(alloc, Event::LearnRow(0)).is_ok()
            || core.step(alloc, Event::LearnCell(0)).is_ok();
        if !moves {
            return false;
        }
    }
    false
}

/// Files of long questions.
const LARGE: &str =
    "131415926535897932384626433832795028841971693993751058209749445923078164062862089986280348253421170679 \
227182818284590452353602874713526624977572470936999595749669676277240766303535475945713821785251664274,\
314142135623730950488016887242096980785696718753769480731766797379907324784621070388503875343276415727 \
131415926535897932384626433832795028841971693993751058209749445923078164062862089986280348253421170670";

#[test]
fn schedules(rt: HostRuntime) -> Result<(), Fail> {
    let mut wrong = String::new(rt.alloc());
    for row in TABLE.lines() {
        push_other(rt.alloc(), &mut wrong, row)?;
    }
    assert_eq!(rt; wrong.as_str(), "");
    Ok(())
}

#[test]
fn long_questions(rt: HostRuntime) -> Result<(), Fail> {
    let plan = Plan {
        rows: 500,
        columns: 10,
        starts: 8,
        net: 0u32,
    };
    let files = files_of(rt.alloc(), LARGE)?;
    let mut core = Core::<u32, Number, Numbers>::open(rt.alloc(), plan, files, 1)?;
    let first = finishes(rt.alloc(), &mut core, 0);
    let second = finishes(rt.alloc(), &mut core, 1);
    assert_eq!(rt; first, true);
    assert_eq!(rt; second, true);
    Ok(())
}
