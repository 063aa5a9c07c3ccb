// Symbols and sets of symbols as they are shown.
ghost use Rattle.std.specs.Prelude.{◌≡◌, ◌++◌, ◌-◌, OnOk};
ghost use Rattle.g4_netlist.specs.Shown.{more_symbols, shown_set, shown_symbol};

use g4_base::Text;
use g4_tokens::{END, EOF};
use std::alloc::AllocError;

/// Adds a text.
pub(crate) fn push(out: &mut Vec<u8>, text: &str) -> Result<(), AllocError>
    ensures { OnOk result (out.new.items ≡ out.old.items ++ text.now) }
{
    out.extend_from_slice(text.as_bytes())
}

/// Adds what is shown of a symbol.
fn push_symbol(out: &mut Vec<u8>, types: &[Text], symbol: u32) -> Result<(), AllocError>
    ensures { OnOk result (out.new.items ≡ out.old.items ++ shown_symbol types.now symbol) }
{
    if symbol == EOF || symbol == END {
        return push(out, "EOF");
    }
    match types.get((symbol as usize).saturating_sub(1)) {
        Some(shown) => push(out, shown.as_str()),
        None => Ok(()),
    }
}

/// Adds what is shown of symbols, `, ` before each.
fn push_more(out: &mut Vec<u8>, types: &[Text], symbols: &[u32]) -> Result<(), AllocError>
    ensures { OnOk result (out.new.items ≡ out.old.items ++ more_symbols types.now symbols.now) }
{
    for symbol in symbols {
        push(out, ", ")?;
        push_symbol(out, types, *symbol)?;
    }
    Ok(())
}

/// Adds what is shown of a set of symbols, where `types` are shown of the token types from 1 on: its one symbol, or all of
/// them in braces.
///
/// # Errors
/// No memory.
pub fn push_set(out: &mut Vec<u8>, types: &[Text], symbols: &[u32]) -> Result<(), AllocError>
    ensures { OnOk result (out.new.items ≡ out.old.items ++ shown_set types.now symbols.now) }
{
    match symbols {
        [] => push(out, "{}"),
        [only] => push_symbol(out, types, *only),
        [first, more @ ..] => {
            push(out, "{")?;
            push_symbol(out, types, *first)?;
            push_more(out, types, more)?;
            push(out, "}")
        }
    }
}
