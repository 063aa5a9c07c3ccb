// The names under which files are fetched.
ghost use Rattle.std.specs.Prelude.{◌≡◌, IfOk, option_map, string_bytes};
ghost use Rattle.g4_fetch.specs.Names.{folder_of, grammar_file, prefix_of, tokens_file};

use g4_base::Text;
use std::alloc::{AllocError, Global};
use std::fmt::Write;

/// The name up to and with its last slash.
fn folder_of(alloc: Global, name: &str) -> Result<String, AllocError>
    ensures { IfOk result (λ folder. string_bytes folder ≡ folder_of name.now) }
{
    match name.rsplit_once('/') {
        Some((folder, _)) => format!(in alloc; "{folder}/"),
        None => Ok(String::new(alloc)),
    }
}

/// What is before the names of files: the library with a slash, where there is one, else the folder of the main file.
pub fn prefix_of(alloc: Global, library: Option<&str>, main: &str) -> Result<Text, AllocError>
    ensures { IfOk result (λ prefix. prefix ≡ prefix_of (option_map (λ l. l.now) library.entry) main.now) }
{
    let prefix = match library {
        Some(library) => format!(in alloc; "{library}/")?,
        None => folder_of(alloc, main)?,
    };
    Ok(Text::new(prefix))
}

/// The name of the file of a grammar.
pub fn grammar_file(alloc: Global, prefix: &str, name: &str) -> Result<Text, AllocError>
    ensures { IfOk result (λ file. file ≡ grammar_file prefix.now name.now) }
{
    let file = format!(in alloc; "{prefix}{name}.g4")?;
    Ok(Text::new(file))
}

/// The name of the file of tokens of a grammar.
pub fn tokens_file(alloc: Global, prefix: &str, name: &str) -> Result<Text, AllocError>
    ensures { IfOk result (λ file. file ≡ tokens_file prefix.now name.now) }
{
    let file = format!(in alloc; "{prefix}{name}.tokens")?;
    Ok(Text::new(file))
}
