// A `.tokens` file, line by line.
ghost use Rattle.std.specs.Prelude.{◌≡◌, ◌≤◌, length};
ghost use Rattle.g4_base.specs.declared.limits.TheConstants.{MOST_BYTES};
ghost use Rattle.g4_token_file.specs.Answers.{IsStep};
ghost use Rattle.g4_token_file.specs.Files.{IsTokenFile, unmarked};

use crate::fault::{LineFault, TokenFileFault};
use crate::line::read_line;
use crate::table::TokenTable;
use bstr::ByteSlice;
use g4_tokens::MOST_TYPES;
use std::alloc::Global;

/// The bytes without a byte order mark before them.
fn unmarked(bytes: &[u8]) -> &[u8]
    ensures { result.now ≡ unmarked bytes.now }
{
    if bytes.starts_with(b"\xEF\xBB\xBF") {
        &bytes[3..]
    } else {
        bytes
    }
}

/// The table after a line, from the table of the lines before it.
fn add_line(alloc: Global, table: TokenTable, line: &[u8]) -> Result<TokenTable, LineFault>
    requires { length line.now ≤ MOST_BYTES }
    ensures { IsStep table line.now result }
{
    if line.is_empty() {
        return Ok(table);
    }
    let entry = read_line(alloc, line)?;
    match table.number_of(&entry.key) {
        Some(known) => {
            if known == entry.number {
                Ok(table)
            } else {
                Err(LineFault::Bad)
            }
        }
        None => {
            if entry.number > MOST_TYPES {
                return Err(LineFault::Past);
            }
            let longer = table.with_entry(alloc, entry)?;
            Ok(longer)
        }
    }
}

/// The table of a `.tokens` file. Its lines are `NAME=n` or `'lit'=n`, split at the last `=`, where n is a decimal number from 1
/// without leading zeros; empty lines and a byte order mark at the start are passed over. The same number given again is no second
/// number.
///
/// # Errors
/// The first faulty line decides:
/// - `BadTokensLine`: the line with this number, counted from 1, has another form, or its name or literal has another number on an
///   earlier line.
/// - `Types`: the number is past 4,096.
/// - `NoMemory`: memory runs out.
pub fn read_tokens(alloc: Global, bytes: &[u8]) -> Result<TokenTable, TokenFileFault>
    requires { length bytes.now ≤ MOST_BYTES }
    ensures { IsTokenFile bytes.now result }
{
    let mut table = TokenTable::new(alloc);
    let mut number: u32 = 0;
    for line in unmarked(bytes).lines() {
        number += 1;
        match add_line(alloc, table, line) {
            Ok(longer) => table = longer,
            Err(fault) => return Err(fault.at_line(number)),
        }
    }
    Ok(table)
}
