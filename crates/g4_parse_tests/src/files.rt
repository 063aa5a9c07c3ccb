// Files parsed by one pass of a store: their trees or faults, and what the store has learned in the end.
ghost use Rattle.std.specs.Prelude.{◌≡◌, ◌≤◌, ◌<◌, ◌^◌, All, IfOk, length};
ghost use Rattle.g4_classes.specs.Classes.{IsSymbol};
ghost use Rattle.g4_learned.specs.Stored.{IsPlan};
ghost use Rattle.g4_lexer.specs.Lexers.{HasTokenTypes};
ghost use Rattle.g4_load.specs.Usable.{IsUsable};
ghost use Rattle.g4_ordered.specs.Network.{IsLexable};
ghost use Rattle.g4_tokens.specs.TokenList.{EndsInEnd, word_of};

use g4_base::{Sequence, Text};
use g4_full::Memory;
use g4_grammar::ParserRules;
use g4_learned::{DecisionNet, Learnings, Opened, Pass, Store, open};
use g4_lexer::{Lexer, tokens};
use g4_load::{Interpreter, build_interpreter};
use g4_parse::{NoPredicates, ParseFault, parse};
use g4_ports::{MemFile, MemShelf};
use g4_store::steps::Steps;
use g4_store::view::Home;
use g4_tokens::Tokens;
use std::alloc::{AllocError, Global};
use std::fmt::Write;
use std::marker::Brand;
use std::sync::Wait;
use std::sync::ledger::{Blank, Ledger};
use std::test::Fail;

/// The grammar as the file X.g4.
fn shelf_of(alloc: Global, grammar: &str) -> Result<MemShelf, AllocError> {
    let file = MemFile {
        name: Text::copy_of(alloc, "X.g4")?,
        bytes: Sequence::new(grammar.as_bytes().to_vec(alloc)?),
    };
    Ok(MemShelf::new(vec![in alloc; file]?, Vec::new(alloc)))
}

/// What parses with this grammar from the rule `s`.
fn interpreter(alloc: Global, grammar: &str) -> Result<Interpreter, Fail>
    ensures { IfOk result IsUsable }
{
    let mut shelf = shelf_of(alloc, grammar)?;
    match build_interpreter(alloc, &mut shelf, None, "X.g4", "s") {
        Ok(interpreter) => Ok(interpreter),
        Err(_) => Err(Fail::from("no interpreter")),
    }
}

/// The tokens of a text.
fn tokens_of(alloc: Global, lexer: &Lexer, text: &str) -> Result<Tokens, Fail>
    requires lexable { IsLexable lexer.now.net }
    requires types { HasTokenTypes lexer.now }
    ensures ends { IfOk result (λ found. EndsInEnd (word_of found.list)) }
    ensures symbols { IfOk result (λ found. All IsSymbol (word_of found.list)) }
    ensures few { IfOk result (λ found. length found.list < 2 ^ 32) }
{
    if text.len() > 1_000_000 {
        return Err(Fail::from("a long text"));
    }
    let bytes = Sequence::new(text.as_bytes().to_vec(alloc)?);
    let mut matcher = lexer.matcher(alloc)?;
    match tokens(alloc, lexer, &mut matcher, bytes) {
        Ok(tokens) => Ok(tokens),
        Err(_) => Err(Fail::from("no tokens")),
    }
}

/// Adds a fault.
fn push_fault(shown: &mut String, fault: ParseFault) -> Result<(), Fail> {
    match fault {
        ParseFault::NoViable { at } => write!(shown, "no viable alternative at {at}")?,
        ParseFault::Mismatch { at, state } => write!(shown, "mismatch at {at} in {state}")?,
        ParseFault::FailedPredicate { at, rule } => write!(shown, "predicate at {at} in {rule}")?,
        ParseFault::TooDeep { at } => write!(shown, "too deep at {at}")?,
        ParseFault::NoMemory => return Err(Fail::from("no memory")),
    }
    Ok(())
}

/// Parses a text, and adds its tree or its fault.
fn push_parsed<B: Home<DecisionNet>, R: Wait, L: Ledger>(
    shown: &mut String,
    rt: &R,
    alloc: Global,
    lexer: &Lexer,
    rules: &ParserRules,
    store: &Store<B>,
    pass: &mut Pass<B>,
    memory: &mut Memory<B>,
    text: &str,
    steps: &mut Steps<L>,
) -> Result<(), Fail>
    requires lexable { IsLexable lexer.now.net }
    requires types { HasTokenTypes lexer.now }
{
    let tokens = tokens_of(alloc, lexer, text)?;
    match parse(
        rt,
        alloc,
        store,
        pass,
        memory,
        &NoPredicates,
        tokens.list.as_slice(),
        steps,
    ) {
        Ok(tree) => {
            let mut out = Vec::new(alloc);
            tree.print(&mut out, rules.as_slice(), &tokens)?;
            shown.push_str(str::from_utf8(&out).unwrap_or("no text"))?;
        }
        Err(fault) => push_fault(shown, fault)?,
    }
    shown.push_str("; ")?;
    Ok(())
}

/// Adds how many rows there are, and how many cells are filled.
fn push_counts(shown: &mut String, listing: &Learnings) -> Result<(), Fail> {
    let rows = listing.rows.len();
    let cells = listing.plan.rows.saturating_mul(listing.plan.columns);
    let filled = listing
        .words
        .iter()
        .skip(listing.plan.rows)
        .take(cells)
        .filter(|word| **word != 0)
        .count();
    write!(shown, "{rows} rows {filled} edges")?;
    Ok(())
}

/// Parses these texts, with a `|` between them, and says what became of each, whether the pass was full, and what was learned.
fn parse_all<B: Home<DecisionNet>, R: Wait, L: Ledger>(
    rt: &R,
    alloc: Global,
    opened: Opened,
    lexer: &Lexer,
    rules: &ParserRules,
    texts: &Text,
    blank: Blank,
) -> Result<String, Fail>
    requires ledger { (blank.name ≡ L.name) × (blank.parts ≡ L.parts) × (0 < blank.parts) }
    requires plan { IsPlan opened.plan }
    requires names { (opened.table.shared.table_id ≡ B.table) × (opened.plan ≡ B.plan) }
    requires lexable { IsLexable lexer.now.net }
    requires types { HasTokenTypes lexer.now }
{
    let mut steps = Steps::<L>::open(blank);
    let (store, mut pass) = Store::<B>::named(opened);
    let mut memory = Memory::new(alloc);
    let mut shown = String::new(alloc);
    for text in texts.as_str().split('|') {
        push_parsed(
            &mut shown,
            rt,
            alloc,
            lexer,
            rules,
            &store,
            &mut pass,
            &mut memory,
            text,
            &mut steps,
        )?;
    }
    if pass.was_full() {
        shown.push_str("full, ")?;
    }
    let Ok(listing) = store.close(alloc, pass) else {
        return Err(Fail::from("no memory"));
    };
    push_counts(&mut shown, &listing)?;
    Ok(shown)
}

/// The same of a grammar, with room for so many rows.
fn parsed_with<R: Wait>(
    rt: &R,
    alloc: Global,
    grammar: &str,
    rows: usize,
    texts: &str,
) -> Result<String, Fail>
    requires { (0 < rows) × (rows ≤ 65536) }
{
    let interpreter = interpreter(alloc, grammar)?;
    let Interpreter {
        rules,
        lexer,
        net,
        ..
    } = interpreter;
    let texts = Text::copy_of(alloc, texts)?;
    let Ok(opened) = open(alloc, net, rows) else {
        return Err(Fail::from("no store"));
    };
    parse_all::<Brand, R, Brand>(rt, alloc, opened, &lexer, &rules, &texts, Blank::new(1))
}

/// Grammars, numbers of rows and texts, and what is shown, worked out by hand.
const TABLE: &str = "grammar X; s : 'a'* ; # 1024 #  => s; 2 rows 3 edges
grammar X; s : 'a'* ; # 1024 # aa => (s a a); 2 rows 4 edges
grammar X; s : 'a'* ; # 1024 # |aa|aa|a => s; (s a a); (s a a); (s a); 2 rows 4 edges
grammar X; s : 'a'* ; # 1 #  => s; full, 1 rows 1 edges
grammar X; s : 'a'* ; # 1 # aa| => (s a a); s; full, 1 rows 2 edges
grammar X; s : 'a' 'b' 'c' | 'a' 'b' 'd' ; # 1024 # abd|aba|abc => (s a b d); no viable alternative at 2; (s a b c); 4 rows 7 edges
grammar X; s : 'a' 'b' 'c' | 'a' 'b' 'd' ; # 2 # abd|aba|abc => (s a b d); no viable alternative at 2; (s a b c); full, 2 rows 1 edges
grammar X; s : e ; e : e '*' e | e '+' e | 'a' ; # 1024 # a+a*a|a*a+a => (s (e (e a) + (e (e a) * (e a)))); (s (e (e (e a) * (e a)) + (e a))); 4 rows 9 edges
grammar X; s : s '*' s | s '+' s | '(' s ')' | INT ; INT : [0-9]+ ; # 1024 # 1 => (s 1); 3 rows 4 edges
grammar X; s : s '*' s | s '+' s | '(' s ')' | INT ; INT : [0-9]+ ; # 1024 # 1+2 => (s (s 1) + (s 2)); 4 rows 6 edges
grammar X; s : t* ; t : 'x' a 'c' | 'y' a 'b' 'c' ; a : 'b' | ; # 1024 # xbcybcxbcybbc|ybcxbc|xbbc|yc => (s (t x (a b) c) (t y a b c) (t x (a b) c) (t y (a b) b c)); (s (t y a b c) (t x (a b) c)); mismatch at 2 in 18; mismatch at 1 in 22; 5 rows 11 edges
grammar X; s : t* ; t : '(' t ')' | '[' t ']' | 'x' a 'c' | 'y' a 'b' 'c' ; a : 'b' | ; # 1024 # ([xbc])[(ybc)]|[[ybbc]] => (s (t ( (t [ (t x (a b) c) ]) )) (t [ (t ( (t y a b c) )) ])); (s (t [ (t [ (t y (a b) b c) ]) ])); 5 rows 12 edges";

/// Adds a row of which something else is shown.
fn push_other<R: Wait>(rt: &R, alloc: Global, all: &mut String, row: &str) -> Result<(), Fail> {
    let (asked, wanted) = row.split_once(" => ").unwrap_or((row, ""));
    let (front, texts) = asked.rsplit_once(" # ").unwrap_or((asked, ""));
    let (grammar, number) = front.rsplit_once(" # ").unwrap_or((front, ""));
    let rows = number.parse::<usize>().unwrap_or(1);
    if rows == 0 || rows > 65_536 {
        return Err(Fail::from("a number of rows"));
    }
    let shown = parsed_with(rt, alloc, grammar, rows, texts)?;
    if shown.as_str() != wanted {
        write!(all, "\n{row}\n  is {shown}")?;
    }
    Ok(())
}

#[test]
fn trees_and_what_is_learned(rt: HostRuntime) -> Result<(), Fail> {
    let mut wrong = String::new(rt.alloc());
    for row in TABLE.lines() {
        push_other(&rt, rt.alloc(), &mut wrong, row)?;
    }
    assert_eq!(rt; wrong.as_str(), "");
    Ok(())
}

#[test]
fn a_large_text(rt: HostRuntime) -> Result<(), Fail> {
    let mut text = String::new(rt.alloc());
    let mut wanted = String::new(rt.alloc());
    wanted.push_str("(s")?;
    for _ in 0..100_000 {
        text.push_str("ab")?;
        wanted.push_str(" a b")?;
    }
    wanted.push_str("); 2 rows 5 edges")?;
    let found = parsed_with(
        &rt,
        rt.alloc(),
        "grammar X; s : ('a' | 'b')* ;",
        1_024,
        text.as_str(),
    )?;
    assert_eq!(rt; found.as_str(), wanted.as_str());
    Ok(())
}

/// A text of so many brackets, and this letter.
fn push_nest(text: &mut String, depth: usize, last: &str) -> Result<(), Fail> {
    for _ in 0..depth {
        text.push('(')?;
    }
    text.push('a')?;
    for _ in 0..depth {
        text.push(')')?;
    }
    text.push_str(last)?;
    Ok(())
}

#[test]
fn a_long_way_on_from_a_row(rt: HostRuntime) -> Result<(), Fail> {
    let mut texts = String::new(rt.alloc());
    push_nest(&mut texts, 1, "b|")?;
    push_nest(&mut texts, 300, "c")?;
    let found = parsed_with(
        &rt,
        rt.alloc(),
        "grammar X; s : x 'b' | x 'c' ; x : '(' x ')' | 'a' ;",
        2_000,
        texts.as_str(),
    )?;
    assert!(rt; found.as_str().split_once(" c); ").is_some());
    assert!(rt; found.as_str().split_once("full").is_none());
    Ok(())
}

/// A grammar whose first decision looks to the end, and in which a text begins with one of so many words.
fn push_first_words(grammar: &mut String, words: usize) -> Result<(), Fail> {
    grammar.push_str("grammar X; s : t 'a'* 'y' | t 'a'* 'z' ; t : 'w'")?;
    for word in 0..words {
        write!(grammar, " | 'w{word}'")?;
    }
    grammar.push_str(" ;")?;
    Ok(())
}

/// Such a text, with so many letters after its first word.
fn push_far(texts: &mut String, word: usize, letters: usize) -> Result<(), Fail> {
    write!(texts, "w{word}")?;
    for _ in 0..letters {
        texts.push('a')?;
    }
    texts.push('z')?;
    Ok(())
}

/// Each text takes another step first, and then comes back to rows that are learned: a lookahead costs what is new of it, and the rest is
/// walked.
#[test]
fn far_looks_come_back(rt: HostRuntime) -> Result<(), Fail> {
    let alloc = rt.alloc();
    let (words, letters) = (40, 10_000);
    let mut grammar = String::new(alloc);
    push_first_words(&mut grammar, words)?;
    let mut texts = String::new(alloc);
    for word in 0..words {
        if word > 0 {
            texts.push('|')?;
        }
        push_far(&mut texts, word, letters)?;
    }
    let found = parsed_with(&rt, alloc, grammar.as_str(), 1_024, texts.as_str())?;
    assert!(rt; found.as_str().ends_with(" a z); 5 rows 86 edges"));
    Ok(())
}

/// A grammar that needs the parser's stack. After `x` or `y`, so many letters are looked at before it is known which alternative fits.
fn push_late(grammar: &mut String, letters: usize) -> Result<(), Fail> {
    grammar.push_str(
        "grammar X; s : t* ; t : 'x' a l 'c' | 'y' a ('b' l 'c' | l 'd') ; a : 'b' | ; l :",
    )?;
    for _ in 0..letters {
        grammar.push_str(" 'l'")?;
    }
    grammar.push_str(" ;")?;
    Ok(())
}

/// A part of a text of that grammar, with this first and last letter.
fn push_part(text: &mut String, first: char, letters: usize, last: char) -> Result<(), Fail> {
    text.push(first)?;
    text.push('b')?;
    for _ in 0..letters {
        text.push('l')?;
    }
    text.push(last)?;
    Ok(())
}

/// The tree of such a part.
fn push_part_tree(
    wanted: &mut String,
    first: char,
    front: &str,
    letters: usize,
    last: char,
) -> Result<(), Fail> {
    write!(wanted, " (t {first} {front} (l")?;
    for _ in 0..letters {
        wanted.push_str(" l")?;
    }
    write!(wanted, ") {last})")?;
    Ok(())
}

/// What is found and wanted of so many parts of such a text, in which alternatives end in turn.
fn late_parts<R: Wait>(
    rt: &R,
    alloc: Global,
    letters: usize,
    parts: usize,
) -> Result<(String, String), Fail> {
    let mut grammar = String::new(alloc);
    push_late(&mut grammar, letters)?;
    let mut text = String::new(alloc);
    let mut wanted = String::new(alloc);
    wanted.push_str("(s")?;
    for _ in 0..parts {
        push_part(&mut text, 'x', letters, 'c')?;
        push_part_tree(&mut wanted, 'x', "(a b)", letters, 'c')?;
        push_part(&mut text, 'y', letters, 'c')?;
        push_part_tree(&mut wanted, 'y', "a b", letters, 'c')?;
        push_part(&mut text, 'y', letters, 'd')?;
        push_part_tree(&mut wanted, 'y', "(a b)", letters, 'd')?;
    }
    wanted.push_str(")")?;
    let found = parsed_with(rt, alloc, grammar.as_str(), 1_024, text.as_str())?;
    Ok((found, wanted))
}

#[test]
fn full_stacks_on_a_large_text(rt: HostRuntime) -> Result<(), Fail> {
    let (found, wanted) = late_parts(&rt, rt.alloc(), 1, 5_000)?;
    assert!(rt; found.as_str().starts_with(wanted.as_str()));
    Ok(())
}

#[test]
fn full_stacks_that_look_far(rt: HostRuntime) -> Result<(), Fail> {
    let (found, wanted) = late_parts(&rt, rt.alloc(), 300, 20)?;
    assert!(rt; found.as_str().starts_with(wanted.as_str()));
    Ok(())
}

/// The rules of one kind of parts in a grammar that needs the parser's stack: so many letters are looked at.
fn push_kind(grammar: &mut String, kind: usize, letters: usize) -> Result<(), Fail> {
    write!(
        grammar,
        " t{kind} : 'x' a{kind} l{kind} 'c' | 'y' a{kind} ('b' l{kind} 'c' | l{kind} 'd') ;"
    )?;
    write!(grammar, " a{kind} : 'b' | ; l{kind} :")?;
    for _ in 0..letters {
        grammar.push_str(" 'l'")?;
    }
    grammar.push_str(" ;")?;
    Ok(())
}

/// A grammar with so many kinds of parts, each with a number before it.
fn push_kinds(grammar: &mut String, kinds: usize, letters: usize) -> Result<(), Fail> {
    grammar.push_str("grammar X; s : ('n' t")?;
    for kind in 0..kinds {
        write!(grammar, " | 'n{kind}' t{kind}")?;
    }
    grammar.push_str(")* ; t : 'z' ;")?;
    for kind in 0..kinds {
        push_kind(grammar, kind, letters)?;
    }
    Ok(())
}

/// A part of this kind, and its tree.
fn push_part_of_kind(
    text: &mut String,
    wanted: &mut String,
    kind: usize,
    letters: usize,
) -> Result<(), Fail> {
    write!(text, "n{kind}")?;
    push_part(text, 'y', letters, 'c')?;
    write!(wanted, " n{kind} (t{kind} y a{kind} b (l{kind}")?;
    for _ in 0..letters {
        wanted.push_str(" l")?;
    }
    wanted.push_str(") c)")?;
    Ok(())
}

#[test]
fn more_sets_than_are_remembered(rt: HostRuntime) -> Result<(), Fail> {
    let alloc = rt.alloc();
    let (kinds, letters) = (90, 110);
    let mut grammar = String::new(alloc);
    push_kinds(&mut grammar, kinds, letters)?;
    let mut text = String::new(alloc);
    let mut wanted = String::new(alloc);
    wanted.push_str("(s")?;
    for part in 0..3 * kinds {
        push_part_of_kind(&mut text, &mut wanted, part % kinds, letters)?;
    }
    wanted.push_str(")")?;
    let found = parsed_with(&rt, alloc, grammar.as_str(), 1_024, text.as_str())?;
    assert!(rt; found.as_str().starts_with(wanted.as_str()));
    Ok(())
}

/// Adds this so many times.
fn push_times(text: &mut String, part: &str, times: usize) -> Result<(), Fail> {
    for _ in 0..times {
        text.push_str(part)?;
    }
    Ok(())
}

/// A text that begins and ends with these, with so many of the parts between them.
fn repeated(
    alloc: Global,
    first: &str,
    part: &str,
    times: usize,
    last: &str,
) -> Result<String, Fail> {
    let mut text = String::new(alloc);
    text.push_str(first)?;
    push_times(&mut text, part, times)?;
    text.push_str(last)?;
    Ok(text)
}

/// Products in a sum.
const CHAIN: &str = "grammar X; s : e ; e : e '*' e | e '+' e | 'a' ;";

/// The tree of a sum of so many products, which are added to one letter.
fn chain_tree(alloc: Global, products: usize) -> Result<String, Fail> {
    let mut wanted = String::new(alloc);
    wanted.push_str("(s ")?;
    push_times(&mut wanted, "(e ", products)?;
    wanted.push_str("(e a)")?;
    push_times(&mut wanted, " + (e (e a) * (e a)))", products)?;
    wanted.push_str("); ")?;
    Ok(wanted)
}

#[test]
fn a_chain_of_operators(rt: HostRuntime) -> Result<(), Fail> {
    let alloc = rt.alloc();
    let text = repeated(alloc, "a", "+a*a", 1_000, "")?;
    let wanted = chain_tree(alloc, 1_000)?;
    let found = parsed_with(&rt, alloc, CHAIN, 1_024, text.as_str())?;
    assert!(rt; found.as_str().starts_with(wanted.as_str()));
    Ok(())
}

#[test]
fn a_chain_with_a_fault_at_its_end(rt: HostRuntime) -> Result<(), Fail> {
    let alloc = rt.alloc();
    let text = repeated(alloc, "a", "+a*a", 100, "+")?;
    let found = parsed_with(&rt, alloc, CHAIN, 1_024, text.as_str())?;
    assert!(rt; found.as_str().starts_with("no viable alternative at 402; "));
    Ok(())
}

/// The same question as before the end of the first text comes in the second, in which nothing is settled by a trial.
#[test]
fn a_chain_before_and_after_a_fault(rt: HostRuntime) -> Result<(), Fail> {
    let alloc = rt.alloc();
    let mut texts = repeated(alloc, "a", "+a*a", 100, "+|")?;
    let chain = repeated(alloc, "a", "+a*a", 100, "")?;
    texts.push_str(chain.as_str())?;
    let mut wanted = String::new(alloc);
    wanted.push_str("no viable alternative at 402; ")?;
    let tree = chain_tree(alloc, 100)?;
    wanted.push_str(tree.as_str())?;
    let found = parsed_with(&rt, alloc, CHAIN, 1_024, texts.as_str())?;
    assert!(rt; found.as_str().starts_with(wanted.as_str()));
    Ok(())
}

#[test]
fn dangling_else(rt: HostRuntime) -> Result<(), Fail> {
    let alloc = rt.alloc();
    let mut text = repeated(alloc, "", "if", 200, "b")?;
    push_times(&mut text, "elsec", 200)?;
    let mut wanted = repeated(alloc, "", "(s if ", 200, "(s b)")?;
    push_times(&mut wanted, " else (s c))", 200)?;
    wanted.push_str("; ")?;
    let grammar = "grammar X; s : 'if' s ('else' s)? | 'b' | 'c' ;";
    let found = parsed_with(&rt, alloc, grammar, 1_024, text.as_str())?;
    assert!(rt; found.as_str().starts_with(wanted.as_str()));
    Ok(())
}

#[test]
fn operands_side_by_side(rt: HostRuntime) -> Result<(), Fail> {
    let alloc = rt.alloc();
    let text = repeated(alloc, "a", "a", 500, "")?;
    let mut wanted = repeated(alloc, "", "(s ", 500, "(s a)")?;
    push_times(&mut wanted, " (s a))", 500)?;
    wanted.push_str("; ")?;
    let found = parsed_with(
        &rt,
        alloc,
        "grammar X; s : s s | 'a' ;",
        1_024,
        text.as_str(),
    )?;
    assert!(rt; found.as_str().starts_with(wanted.as_str()));
    Ok(())
}
