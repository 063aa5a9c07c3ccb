// The lines of faults of a grammar's rules.
ghost use Rattle.std.specs.Prelude.{◌≡◌, ◌++◌, IfOk, OnOk};
ghost use Rattle.g4_tool.specs.Texts.{empty_loop_line, empty_operator_line, label_clash_line, left_cycle_line, lexer_predicate_line, more_names, names_in_order, no_primary_line, undefined_line, unknown_command_line, unknown_predicate_line};

use g4_base::{Place, Sequence, Text};
use g4_outcome::{Line, push, start_line, to_err};
use std::alloc::{AllocError, Global};

/// A rule, a mode or a channel, as the kind says, that is named and that the grammar has not.
pub fn undefined(alloc: Global, name: &str, kind: &str, item: &str) -> Result<Line, AllocError>
    ensures { IfOk result (λ line. line ≡ undefined_line name.now kind.now item.now) }
{
    let line = format!(in alloc; "{name}: {kind}{item} is not defined\n")?;
    Ok(to_err(line))
}

/// A command that is none.
pub fn unknown_command(alloc: Global, name: &str, command: &str) -> Result<Line, AllocError>
    ensures { IfOk result (λ line. line ≡ unknown_command_line name.now command.now) }
{
    let line = format!(in alloc; "{name}: command {command} is not known\n")?;
    Ok(to_err(line))
}

/// A predicate in a lexer rule.
pub fn lexer_predicate(alloc: Global, name: &str, place: Place) -> Result<Line, AllocError>
    ensures { IfOk result (λ line. line ≡ lexer_predicate_line name.now place) }
{
    let mut line = start_line(alloc, name, place)?;
    line.push_str("predicate in a lexer rule\n")?;
    Ok(to_err(line))
}

/// A predicate whose text is none.
pub fn unknown_predicate(alloc: Global, name: &str, place: Place) -> Result<Line, AllocError>
    ensures { IfOk result (λ line. line ≡ unknown_predicate_line name.now place) }
{
    let mut line = start_line(alloc, name, place)?;
    line.push_str("predicate is not known\n")?;
    Ok(to_err(line))
}

/// A label that clashes, or a rule that is partly labelled.
pub fn label_clash(alloc: Global, name: &str, label: &str) -> Result<Line, AllocError>
    ensures { IfOk result (λ line. line ≡ label_clash_line name.now label.now) }
{
    let line = format!(in alloc; "{name}: label {label} clashes\n")?;
    Ok(to_err(line))
}

/// A rule each of whose alternatives begins with the rule itself.
pub fn no_primary(alloc: Global, name: &str, rule: &str) -> Result<Line, AllocError>
    ensures { IfOk result (λ line. line ≡ no_primary_line name.now rule.now) }
{
    let line = format!(in alloc;
        "{name}: rule {rule} has no alternative without left recursion\n"
    )?;
    Ok(to_err(line))
}

/// A rule and the number of its alternative that begins with the rule itself and goes on with what derives the empty word.
pub fn empty_operator(
    alloc: Global,
    name: &str,
    rule: &str,
    alternative: u32,
) -> Result<Line, AllocError>
    ensures { IfOk result (λ line. line ≡ empty_operator_line name.now rule.now alternative) }
{
    let line = format!(in alloc;
        "{name}: rule {rule} alternative {alternative} is an empty operator\n"
    )?;
    Ok(to_err(line))
}

/// A rule with a loop that can be empty.
pub fn empty_loop(alloc: Global, name: &str, rule: &str) -> Result<Line, AllocError>
    ensures { IfOk result (λ line. line ≡ empty_loop_line name.now rule.now) }
{
    let line = format!(in alloc; "{name}: rule {rule} has a loop that can be empty\n")?;
    Ok(to_err(line))
}

/// Adds names, with `, ` before each.
fn push_more_names(out: &mut Vec<u8>, names: &[Text]) -> Result<(), AllocError>
    ensures { OnOk result (out.new.items ≡ out.old.items ++ more_names names.now) }
{
    for name in names {
        push(out, ", ")?;
        push(out, name.as_str())?;
    }
    Ok(())
}

/// Adds names, with `, ` between them.
fn push_names(out: &mut Vec<u8>, names: &[Text]) -> Result<(), AllocError>
    ensures { OnOk result (out.new.items ≡ out.old.items ++ names_in_order names.now) }
{
    match names {
        [] => Ok(()),
        [first, more @ ..] => {
            push(out, first.as_str())?;
            push_more_names(out, more)
        }
    }
}

/// Rules of which each calls the next before anything is read, and the last the first.
pub fn left_cycle(alloc: Global, name: &str, rules: &[Text]) -> Result<Line, AllocError>
    ensures { IfOk result (λ line. line ≡ left_cycle_line name.now rules.now) }
{
    let mut line = format!(in alloc; "{name}: left recursion through ")?.into_bytes();
    push_names(&mut line, rules)?;
    push(&mut line, "\n")?;
    Ok(Line::ToErr(Sequence::new(line)))
}
