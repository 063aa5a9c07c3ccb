// Paths of SLL as they are stored: columns in place of symbols, and codes in place of verdicts.
ghost use Rattle.std.specs.Prelude.{◌≡◌, ◌≤◌, ◌<◌, ◌^◌, IfNone, IfOk, IfSome, length, map};
ghost use Rattle.g4_predict.specs.Paths.{led_of, looked_of, path_of, verdict_of};
ghost use Rattle.g4_learned.specs.Automata.{code_of as code_for, verdict_at as verdict_for};
ghost use Rattle.g4_guards.specs.Levels.{IsCondition, IsDecision};
ghost use Rattle.g4_learned.specs.Stored.{IsStored, stored_entry as stored_entry_of, stored_led as stored_led_of};

use crate::decision_net::DecisionNet;
use crate::row::Row;
use g4_predict::{Led, Looked, Path, Verdict};
use g4_store::{automaton, path};
use std::alloc::{AllocError, Global};
use std::collections::VecDeque;

/// The code of a verdict, where it has one.
fn code_of(verdict: Verdict) -> Option<u32>
    ensures some { IfSome result (λ code. code ≡ code_for (verdict_of verdict)) }
    ensures none { IfNone result (2 ^ 32 ≤ code_for (verdict_of verdict)) }
{
    match verdict {
        Verdict::ErrorAt(_) => Some(0),
        Verdict::Sensitive(_) => Some(1),
        Verdict::Answer(alternative) => alternative.checked_add(2),
    }
}

/// The verdict of a code, to which the symbol at a place leads.
pub(crate) fn verdict_at(code: u64, at: u32) -> Verdict
    requires { code < 2 ^ 32 }
    ensures { verdict_of result ≡ verdict_for code at }
{
    match code {
        0 => Verdict::ErrorAt(at),
        1 => Verdict::Sensitive(at),
        _ => Verdict::Answer((code - 2) as u32),
    }
}

/// What a symbol led to, as it is stored. There is no memory for a verdict that has no code.
fn stored_led(alloc: Global, led: Led) -> Result<automaton::Led<Row>, AllocError>
    ensures { IfOk result (λ stored. stored ≡ stored_led_of (led_of led)) }
{
    match led {
        Led::Row(snapshot) => {
            let row = Row::of(alloc, snapshot)?;
            Ok(automaton::Led::Row(row, 0))
        }
        Led::Ended(verdict) => match code_of(verdict) {
            Some(code) => Ok(automaton::Led::End(code)),
            None => Err(AllocError),
        },
    }
}

/// A symbol that was looked at, as it is stored.
///
/// # Errors
/// No memory.
pub(crate) fn stored_entry(
    alloc: Global,
    net: &DecisionNet,
    entry: Looked,
) -> Result<path::Looked<Row>, AllocError>
    ensures { IfOk result (λ stored. stored ≡ stored_entry_of net.now (looked_of entry)) }
{
    let Looked { symbol, led } = entry;
    let column = net.column_of(symbol);
    let led = stored_led(alloc, led)?;
    Ok(path::Looked { column, led })
}

/// Symbols that were looked at, as they are stored.
///
/// # Errors
/// No memory.
pub(crate) fn stored_entries(
    alloc: Global,
    net: &DecisionNet,
    looked: Vec<Looked>,
) -> Result<VecDeque<path::Looked<Row>>, AllocError>
    ensures { IfOk result (λ entries. entries.items ≡ map (stored_entry_of net.now) (map looked_of looked.items)) }
{
    let mut entries = VecDeque::new(alloc);
    for entry in looked {
        let stored = stored_entry(alloc, net, entry)?;
        entries.push_back(stored)?;
    }
    Ok(entries)
}

/// The path of a decision under this condition, as it is stored.
///
/// # Errors
/// No memory.
pub(crate) fn stored_path(
    alloc: Global,
    net: &DecisionNet,
    condition: u32,
    path: Path,
) -> Result<path::Path<Row>, AllocError>
    requires decision { IsDecision net.now.net path.decision }
    requires condition { IsCondition net.now.net path.decision condition }
    requires few { length net.now.starts < 2 ^ 32 }
    ensures { IfOk result (λ stored. IsStored net.now path.decision condition (path_of path) stored) }
{
    let Path {
        decision,
        start,
        looked,
    } = path;
    let number = net.start_of(decision, condition) as u32;
    let content = Row::of(alloc, start)?;
    let looked = stored_entries(alloc, net, looked.into_vec())?;
    Ok(path::Path {
        start: number,
        content,
        looked,
    })
}
