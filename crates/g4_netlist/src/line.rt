// The lines of states.
ghost use Rattle.std.specs.Prelude.{◌≡◌, ◌++◌, [], OnOk};
ghost use Rattle.g4_net.specs.declared.network.State.TheVariants.{Call, Edge};
ghost use Rattle.g4_netlist.specs.Listing.{name_of, spaced, state_line, state_text};

use crate::shown::{push, push_set};
use g4_base::Text;
use g4_net::State;
use g4_tokens::Symbols;
use std::alloc::{AllocError, Global};

/// Adds the name of a rule: rule 0 is the added rule `S'`, and these are the names of the rules from 1 on.
///
/// # Errors
/// No memory.
pub fn push_name(out: &mut Vec<u8>, names: &[Text], rule: u32) -> Result<(), AllocError>
    ensures { OnOk result (out.new.items ≡ out.old.items ++ name_of names.now rule) }
{
    if rule == 0 {
        return push(out, "S'");
    }
    match names.get(rule as usize - 1) {
        Some(name) => push(out, name.as_str()),
        None => Ok(()),
    }
}

/// Adds numbers, a space before each.
fn push_spaced(alloc: Global, out: &mut Vec<u8>, numbers: &[u32]) -> Result<(), AllocError>
    ensures { OnOk result (out.new.items ≡ out.old.items ++ spaced numbers.now) }
{
    for number in numbers {
        let text = format!(in alloc; " {number}")?;
        push(out, text.as_str())?;
    }
    Ok(())
}

/// Adds what is listed of an edge that takes the symbols of a set.
fn push_edge(
    alloc: Global,
    out: &mut Vec<u8>,
    shown: &[Text],
    set: &Symbols,
    target: u32,
) -> Result<(), AllocError>
    ensures { OnOk result (out.new.items ≡ out.old.items ++ state_text [] shown.now 0 (Edge set.now target)) }
{
    let symbols = set.to_vec(alloc)?;
    let rest = format!(in alloc; " {target}")?;
    push(out, "token ")?;
    push_set(out, shown, symbols.as_slice())?;
    push(out, rest.as_str())
}

/// Adds what is listed of a call.
fn push_call(
    alloc: Global,
    out: &mut Vec<u8>,
    names: &[Text],
    rule: u32,
    level: u32,
    back: u32,
) -> Result<(), AllocError>
    ensures { OnOk result (out.new.items ≡ out.old.items ++ state_text names.now [] 0 (Call rule level back)) }
{
    let rest = format!(in alloc; " {level} {back}")?;
    push(out, "call ")?;
    push_name(out, names, rule)?;
    push(out, rest.as_str())
}

/// Adds what is listed of a state after its number, where so many predicates are made before it.
fn push_text(
    alloc: Global,
    out: &mut Vec<u8>,
    names: &[Text],
    shown: &[Text],
    before: usize,
    state: &State<Symbols>,
) -> Result<(), AllocError>
    ensures { OnOk result (out.new.items ≡ out.old.items ++ state_text names.now shown.now before state.now) }
{
    match state {
        State::Decision(targets) => {
            push(out, "decision")?;
            push_spaced(alloc, out, targets.as_slice())
        }
        State::End(_) => push(out, "end"),
        State::Edge(set, target) => push_edge(alloc, out, shown, set, *target),
        State::Call { rule, level, back } => push_call(alloc, out, names, *rule, *level, *back),
        State::Predicate(_, target) => {
            let text = format!(in alloc; "pred {before} {target}")?;
            push(out, text.as_str())
        }
        State::Level(level, target) => {
            let text = format!(in alloc; "level {level} {target}")?;
            push(out, text.as_str())
        }
        State::Action(target) => {
            let text = format!(in alloc; "action {target}")?;
            push(out, text.as_str())
        }
        State::Empty(target) => {
            let text = format!(in alloc; "empty {target}")?;
            push(out, text.as_str())
        }
    }
}

/// Adds the line of a state, where so many predicates are made before it.
pub(crate) fn push_line(
    alloc: Global,
    out: &mut Vec<u8>,
    names: &[Text],
    shown: &[Text],
    before: usize,
    number: usize,
    state: &State<Symbols>,
) -> Result<(), AllocError>
    ensures { OnOk result (out.new.items ≡ out.old.items ++ state_line names.now shown.now before number state.now) }
{
    let start = format!(in alloc; "{number} ")?;
    push(out, start.as_str())?;
    push_text(alloc, out, names, shown, before, state)?;
    push(out, "\n")
}
