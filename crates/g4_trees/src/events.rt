// The events of a tree, and their lines.
ghost use Rattle.std.specs.Prelude.{◌≡◌, ◌∷◌, ◌++◌, [], codes, decimal, IfOk, List, option_to_list, reverse, Some};
ghost use Rattle.g4_trees.specs.Appending.{Adds};
ghost use Rattle.g4_trees.specs.Events.{called as called_of, called_in as called_in_of, event_line, event_lines, events_of, label_or as label_of};
ghost use Rattle.g4_trees.specs.Steps.{events_from};
ghost use Rattle.g4_trees.specs.Trees.{Tree as Nested, items_of};
ghost use Rattle.g4_trees.specs.declared.tree.Item.{Item as TreeItem};

use crate::text::{push, push_three, push_token};
use crate::{Item, Tree};
use g4_base::Text;
use g4_source::{ParserRule, RuleAlternative};
use g4_tokens::Tokens;
use itoa::Buffer;
use std::alloc::{AllocError, Global};

/// An event of a walk over a tree, node by node. A node is given by its rule and the number of its alternative as the
/// grammar writes it, a token by its place in the token list.
#[derive(Clone, Copy, Debug, PartialEq, Eq)]
pub enum Event {
    /// A node begins.
    Enter { rule: u32, alt: u32 },
    /// A token.
    Token(u32),
    /// A node ends.
    Exit { rule: u32, alt: u32 },
}

/// The event of an item, where `ends` are the events at which the open nodes end, the innermost last. There is none at the
/// end of a node that has not begun.
fn next_event(ends: &mut Vec<Event>, item: Item) -> Result<Option<Event>, AllocError>
    ensures { (rest : List TreeItem) → IfOk result
        (λ event. events_from (reverse ends.old.items) (item ∷ rest) ≡ option_to_list event ++ events_from (reverse ends.new.items) rest) }
{
    match item {
        Item::Enter { rule, alt, .. } => {
            ends.push(Event::Exit { rule, alt })?;
            Ok(Some(Event::Enter { rule, alt }))
        }
        Item::Token(at) => Ok(Some(Event::Token(at))),
        Item::Exit => Ok(ends.pop()),
    }
}

/// The events of items.
fn events_among(alloc: Global, items: &[Item]) -> Result<Vec<Event>, AllocError>
    ensures { IfOk result (λ v. v.items ≡ events_from [] items.now) }
{
    let mut events = Vec::new(alloc);
    let mut ends = Vec::new(alloc);
    for item in items {
        if let Some(event) = next_event(&mut ends, *item)? {
            events.push(event)?;
        }
    }
    Ok(events)
}

/// The name of a label, or else this one.
fn label_or<'a>(name: &'a str, label: &'a Option<Text>) -> &'a str
    ensures { result.now ≡ label_of name.now label.now }
{
    match label {
        Some(label) => label.as_str(),
        None => name,
    }
}

/// What an alternative of a rule is called, by its number from 1 on: its label, if it has one, else the name of the rule.
fn called_in<A>(rule: &ParserRule<A>, alt: u32) -> &str
    ensures { result.now ≡ called_in_of (Some rule.now) alt }
{
    let name = rule.name.as_str();
    match rule
        .alternatives
        .as_slice()
        .get((alt as usize).saturating_sub(1))
    {
        Some(alternative) => label_or(name, &alternative.label),
        None => name,
    }
}

/// What a node of this rule and alternative is called, empty where there is no such rule. Both count from 1.
fn called<A>(rules: &[ParserRule<A>], rule: u32, alt: u32) -> &str
    ensures { result.now ≡ called_of rules.now rule alt }
{
    match rules.get((rule as usize).saturating_sub(1)) {
        Some(rule) => called_in(rule, alt),
        None => "",
    }
}

/// Adds the line of a node's beginning or end, `NAME: enter R ALT` or `NAME: exit R ALT`, where `word` is `enter ` or
/// `exit `.
fn push_node<A>(
    out: &mut Vec<u8>,
    name: &str,
    word: &str,
    rules: &[ParserRule<A>],
    rule: u32,
    alt: u32,
) -> Result<(), AllocError>
    ensures { Adds (name.now ++ (codes ": " ++ ((word.now ++ (called_of rules.now rule alt ++ (codes " " ++ decimal alt)))
        ++ codes "\n"))) out.old.items out.new.items result }
{
    let mut digits = Buffer::new();
    push_three(out, name, ": ", word)?;
    push_three(out, called(rules, rule, alt), " ", digits.format(alt))?;
    push(out, "\n")
}

/// Adds the line of an event: `NAME: enter R ALT`, `NAME: token TEXT` or `NAME: exit R ALT`, and a newline. R is the label
/// of the alternative, if it has one, else the name of the rule, and ALT the number of the alternative.
///
/// # Errors
/// No memory. A front part may be added then.
pub fn push_event<A>(
    out: &mut Vec<u8>,
    name: &str,
    rules: &[ParserRule<A>],
    tokens: &Tokens,
    event: Event,
) -> Result<(), AllocError>
    ensures { Adds (event_line rules.now tokens.now name.now event) out.old.items out.new.items result }
{
    match event {
        Event::Enter { rule, alt } => push_node(out, name, "enter ", rules, rule, alt),
        Event::Token(at) => {
            push_three(out, name, ": ", "token ")?;
            push_token(out, tokens, at)?;
            push(out, "\n")
        }
        Event::Exit { rule, alt } => push_node(out, name, "exit ", rules, rule, alt),
    }
}

/// Adds the lines of the events of items.
fn push_events<A>(
    alloc: Global,
    out: &mut Vec<u8>,
    name: &str,
    rules: &[ParserRule<A>],
    tokens: &Tokens,
    items: &[Item],
) -> Result<(), AllocError>
    ensures { Adds (event_lines rules.now tokens.now name.now (events_from [] items.now)) out.old.items out.new.items result }
{
    let mut ends = Vec::new(alloc);
    for item in items {
        if let Some(event) = next_event(&mut ends, *item)? {
            push_event(out, name, rules, tokens, event)?;
        }
    }
    Ok(())
}

impl Tree {
    /// The events of the tree: each node's beginning, its children in order, and its end.
    ///
    /// # Errors
    /// No memory.
    pub fn events(&self, alloc: Global) -> Result<Vec<Event>, AllocError>
        ensures { (t : Nested) → self.now ≡ items_of t → IfOk result (λ v. v.items ≡ events_of t) }
    {
        events_among(alloc, self.items())
    }

    /// Adds the lines of the events of the tree, as `push_event` writes them.
    ///
    /// # Errors
    /// No memory. A front part may be added then.
    pub fn print_events<A>(
        &self,
        alloc: Global,
        out: &mut Vec<u8>,
        name: &str,
        rules: &[ParserRule<A>],
        tokens: &Tokens,
    ) -> Result<(), AllocError>
        ensures { (t : Nested) → self.now ≡ items_of t
            → Adds (event_lines rules.now tokens.now name.now (events_of t)) out.old.items out.new.items result }
    {
        push_events(alloc, out, name, rules, tokens, self.items())
    }
}
