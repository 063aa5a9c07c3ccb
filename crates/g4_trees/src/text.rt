// The text of a tree.
ghost use Rattle.std.specs.Prelude.{◌≡◌, ◌++◌, false};
ghost use Rattle.g4_trees.specs.Appending.{Adds};
ghost use Rattle.g4_trees.specs.Pieces.{closing as closing_of, gap as gap_of, item_text, items_text, opening as opening_of};
ghost use Rattle.g4_trees.specs.TreeText.{name_of, shown_byte, shown_bytes, text_at, text_of, token_text};
ghost use Rattle.g4_trees.specs.Trees.{Tree as Nested, items_of};

use crate::{Item, Tree};
use g4_source::ParserRule;
use g4_tokens::{Token, Tokens};
use std::alloc::AllocError;
use std::slice;

/// Adds a text.
pub(crate) fn push(out: &mut Vec<u8>, text: &str) -> Result<(), AllocError>
    ensures { Adds text.now out.old.items out.new.items result }
{
    out.extend_from_slice(text.as_bytes())
}

/// Adds three texts, one after another.
pub(crate) fn push_three(
    out: &mut Vec<u8>,
    first: &str,
    second: &str,
    third: &str,
) -> Result<(), AllocError>
    ensures { Adds (first.now ++ (second.now ++ third.now)) out.old.items out.new.items result }
{
    push(out, first)?;
    push(out, second)?;
    push(out, third)
}

/// A byte as it is shown.
fn shown(byte: &u8) -> &[u8]
    ensures { result.now ≡ shown_byte byte.now }
{
    match byte {
        b'\n' => b"\\n",
        b'\t' => b"\\t",
        b'\r' => b"\\r",
        other => slice::from_ref(other),
    }
}

/// Adds bytes as they are shown: newline, tab and return as `\n`, `\t` and `\r`.
///
/// # Errors
/// No memory. A front part may be added then.
pub fn push_shown_bytes(out: &mut Vec<u8>, bytes: &[u8]) -> Result<(), AllocError>
    ensures { Adds (shown_bytes bytes.now) out.old.items out.new.items result }
{
    for byte in bytes {
        out.extend_from_slice(shown(byte))?;
    }
    Ok(())
}

/// Adds a token of a file of these bytes as it is shown: its bytes, and one that closes the file as `<EOF>`.
///
/// # Errors
/// No memory. A front part may be added then.
pub fn push_token_text(out: &mut Vec<u8>, bytes: &[u8], token: &Token) -> Result<(), AllocError>
    ensures { Adds (token_text bytes.now token.now) out.old.items out.new.items result }
{
    let start = token.start as usize;
    if bytes.len() <= start {
        return push(out, "<EOF>");
    }
    let end = (token.end as usize).clamp(start, bytes.len());
    push_shown_bytes(out, &bytes[start..end])
}

/// Adds the token at a place of the list as it is shown, and nothing where there is none.
///
/// # Errors
/// No memory. A front part may be added then.
pub fn push_token(out: &mut Vec<u8>, tokens: &Tokens, at: u32) -> Result<(), AllocError>
    ensures { Adds (text_at tokens.now at) out.old.items out.new.items result }
{
    match tokens.list.as_slice().get(at as usize) {
        Some(token) => push_token_text(out, tokens.bytes.as_slice(), token),
        None => Ok(()),
    }
}

/// The name of a rule by its number from 1 on, empty where there is none.
fn rule_name<A>(rules: &[ParserRule<A>], rule: u32) -> &str
    ensures { result.now ≡ name_of rules.now rule }
{
    match rules.get((rule as usize).saturating_sub(1)) {
        Some(rule) => rule.name.as_str(),
        None => "",
    }
}

/// The bracket before the name of a node, by what follows its beginning.
fn opening(more: &[Item]) -> &'static str
    ensures { result.now ≡ opening_of more.now }
{
    match more {
        [Item::Exit, ..] => "",
        _ => "(",
    }
}

/// The bracket at the end of a node, by whether it has just begun.
fn closing(entered: bool) -> &'static str
    ensures { result.now ≡ closing_of entered }
{
    if entered { "" } else { ")" }
}

/// The space before what follows, where that begins a child.
fn gap(more: &[Item]) -> &'static str
    ensures { result.now ≡ gap_of more.now }
{
    match more {
        [] => "",
        [Item::Exit, ..] => "",
        _ => " ",
    }
}

/// Adds what an item adds to the text, by whether a node has just begun, and by what follows.
fn push_item<A>(
    out: &mut Vec<u8>,
    rules: &[ParserRule<A>],
    tokens: &Tokens,
    entered: bool,
    item: Item,
    more: &[Item],
) -> Result<(), AllocError>
    ensures { Adds (item_text rules.now tokens.now entered item more.now) out.old.items out.new.items result }
{
    match item {
        Item::Enter { rule, .. } => {
            push_three(out, opening(more), rule_name(rules, rule), gap(more))
        }
        Item::Token(at) => {
            push_token(out, tokens, at)?;
            push(out, gap(more))
        }
        Item::Exit => {
            push(out, closing(entered))?;
            push(out, gap(more))
        }
    }
}

/// Adds what items add to the text.
fn push_items<A>(
    out: &mut Vec<u8>,
    rules: &[ParserRule<A>],
    tokens: &Tokens,
    items: &[Item],
) -> Result<(), AllocError>
    ensures { Adds (items_text rules.now tokens.now false items.now) out.old.items out.new.items result }
{
    let mut entered = false;
    let mut rest = items;
    while let [item, more @ ..] = rest {
        push_item(out, rules, tokens, entered, *item, more)?;
        entered = item.is_enter();
        rest = more;
    }
    Ok(())
}

impl Tree {
    /// Adds the text of the tree: `(rule child child)`, a node without children as its rule's name alone, and tokens as they
    /// are shown. Rules count from 1, and one that is not there has an empty name.
    ///
    /// # Errors
    /// No memory. A front part may be added then.
    pub fn print<A>(
        &self,
        out: &mut Vec<u8>,
        rules: &[ParserRule<A>],
        tokens: &Tokens,
    ) -> Result<(), AllocError>
        ensures { (t : Nested) → self.now ≡ items_of t → Adds (text_of rules.now tokens.now t) out.old.items out.new.items result }
    {
        push_items(out, rules, tokens, self.items())
    }
}
