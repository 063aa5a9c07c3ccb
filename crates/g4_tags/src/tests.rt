// The pieces of texts.
use crate::{Piece, Pieced, Tag, TagFault, read_pieces};
use g4_base::{Place, Text};
use std::alloc::{AllocError, Global};
use std::fmt::Write;
use std::test::Fail;

/// The names that tags may have.
const NAMES: &str = "e stat é ID INT a_1 EOF";

fn names(alloc: Global) -> Result<Vec<Text>, AllocError> {
    let mut names = Vec::new(alloc);
    for name in NAMES.split(' ') {
        names.push(Text::copy_of(alloc, name)?)?;
    }
    Ok(names)
}

fn push_place(shown: &mut String, place: Place) -> Result<(), AllocError> {
    write!(shown, "{}:{}", place.line, place.column)
}

fn push_places(shown: &mut String, places: &[Place]) -> Result<(), AllocError> {
    for place in places {
        shown.push(' ')?;
        push_place(shown, *place)?;
    }
    Ok(())
}

fn push_tag(shown: &mut String, alloc: Global, tag: &Tag) -> Result<(), AllocError> {
    let written = tag.written(alloc)?;
    let name = tag.bound_name(alloc)?;
    write!(
        shown,
        "{} {} {}",
        written.as_str(),
        name.as_str(),
        tag.named
    )
}

fn push_piece(shown: &mut String, alloc: Global, piece: &Piece) -> Result<(), AllocError> {
    match piece {
        Piece::Plain(plain) => {
            write!(shown, "'{}'", plain.text.as_str())?;
            push_places(shown, plain.places.as_slice())
        }
        Piece::Tag(placed) => {
            push_tag(shown, alloc, &placed.tag)?;
            shown.push(' ')?;
            push_place(shown, placed.place)
        }
    }
}

fn show(alloc: Global, pieced: &Pieced) -> Result<String, AllocError> {
    let mut shown = String::new(alloc);
    for piece in pieced.pieces.as_slice() {
        push_piece(&mut shown, alloc, piece)?;
        shown.push_str("; ")?;
    }
    push_place(&mut shown, pieced.end)?;
    Ok(shown)
}

fn answer(alloc: Global, text: &str) -> Result<String, AllocError> {
    let names = names(alloc)?;
    match read_pieces(alloc, &names, text) {
        Ok(pieced) => show(alloc, &pieced),
        Err(TagFault::Syntax(at)) => format!(in alloc; "syntax {at}"),
        Err(TagFault::NoMemory) => String::from_str(alloc, "no memory"),
    }
}

/// Texts and their pieces: a plain text with the place of each of its bytes and of what follows, a tag with the name that it binds, the
/// number of what it names, and its place; and in the end the place where the text ends. `¶` is a newline.
const TABLE: &str = " => 1:0
<e> => <e> e 0 1:0; 1:3
<x:e> + <e> => <x:e> x 0 1:0; ' + ' 1:5 1:6 1:7 1:8; <e> e 0 1:8; 1:11
<INT> * 3 => <INT> INT 4 1:0; ' * 3' 1:5 1:6 1:7 1:8 1:9; 1:9
<e><e> => <e> e 0 1:0; <e> e 0 1:3; 1:6
ab => 'ab' 1:0 1:1 1:2; 1:2
a>b => 'a>b' 1:0 1:1 1:2 1:3; 1:3
> => '>' 1:0 1:1; 1:1
\\<e\\> => '<e>' 1:0 1:2 1:3 1:5; 1:5
x\\\\<e> => 'x\\<e>' 1:0 1:1 1:2 1:4 1:5 1:6; 1:6
\\ => '\\' 1:0 1:1; 1:1
a\\b => 'a\\b' 1:0 1:1 1:2 1:3; 1:3
a¶b<e>¶ => 'a¶b' 1:0 1:1 2:0 2:1; <e> e 0 2:1; '¶' 2:4 3:0; 3:0
é<é:é> => 'é' 1:0 1:0 1:1; <é:é> é 2 1:1; 1:6
<EOF> => <EOF> EOF 6 1:0; 1:5
<a_1:ID> => <a_1:ID> a_1 3 1:0; 1:8
<x:e => syntax 0
<x => syntax 0
< => syntax 0
a< => syntax 1
é<x:e => syntax 2
\\<<x> => syntax 2
<e>< => syntax 3
<e> <f> => syntax 4
<> => syntax 0
<:e> => syntax 0
<x:> => syntax 0
<x:y> => syntax 0
<x:e:e> => syntax 0
< e> => syntax 0
<e > => syntax 0
<1:e> => syntax 0
<_:e> => syntax 0
<x:e<e> => syntax 0
<é => syntax 0
<e>\\<<e>> => <e> e 0 1:0; '<' 1:3 1:5; <e> e 0 1:5; '>' 1:8 1:9; 1:9";

fn unescaped(alloc: Global, text: &str) -> Result<String, AllocError> {
    let mut out = String::new(alloc);
    for c in text.chars() {
        out.push(if c == '¶' { '\n' } else { c })?;
    }
    Ok(out)
}

fn push_other(alloc: Global, all: &mut String, row: &str) -> Result<(), Fail> {
    let (text, wanted) = row.split_once(" => ").unwrap_or((row, ""));
    let text = unescaped(alloc, text)?;
    let wanted = unescaped(alloc, wanted)?;
    let shown = answer(alloc, text.as_str())?;
    if shown.as_str() != wanted.as_str() {
        write!(all, "\n{row}\n  is {}", shown.as_str())?;
    }
    Ok(())
}

#[test]
fn pieces_by_hand(rt: HostRuntime) -> Result<(), Fail> {
    let mut wrong = String::new(rt.alloc());
    for row in TABLE.lines() {
        push_other(rt.alloc(), &mut wrong, row)?;
    }
    assert_eq!(rt; wrong.as_str(), "");
    Ok(())
}

#[test]
fn a_large_text(rt: HostRuntime) -> Result<(), Fail> {
    let alloc = rt.alloc();
    let mut text = String::new(alloc);
    for _ in 0..10_000 {
        text.push_str("ab<x:e>")?;
    }
    let names = names(alloc)?;
    match read_pieces(alloc, &names, text.as_str()) {
        Ok(pieced) => assert_eq!(rt; pieced.pieces.len(), 20_000),
        Err(_) => return Err(Fail::from("no pieces")),
    }
    Ok(())
}
