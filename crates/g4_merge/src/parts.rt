// What grammars bring to one that imports them.
ghost use Rattle.std.specs.Prelude.{◌≡◌, ◌++◌, OnOk, filter, flat_map, length, replicate};
ghost use Rattle.g4_merge.specs.Merging.{declares, declared_by, file_numbers};

use g4_base::{Sequence, Text};
use g4_source::{Prequel, Rule, Source};
use std::alloc::AllocError;

/// What is gathered of grammars: what they declare before their rules, their rules, of each rule the number of its file, and their
/// modes.
#[derive(Drop)]
pub(crate) struct Parts {
    pub prequels: Vec<Prequel>,
    pub rules: Vec<Rule>,
    pub files: Vec<usize>,
    pub modes: Vec<Text>,
}

/// Whether it declares names that the importing grammar gets too: of tokens or of channels.
fn declares(prequel: &Prequel) -> bool
    ensures { result ≡ declares prequel.now }
{
    match prequel {
        Prequel::Tokens(..) => true,
        Prequel::Channels(..) => true,
        Prequel::Options(_) => false,
        Prequel::Import(..) => false,
    }
}

/// Adds those that declare names.
fn push_declared(found: &mut Vec<Prequel>, prequels: Sequence<Prequel>) -> Result<(), AllocError>
    ensures { OnOk result (found.new.items ≡ found.old.items ++ filter declares prequels) }
{
    for prequel in prequels.into_vec() {
        if declares(&prequel) {
            found.push(prequel)?;
        }
    }
    Ok(())
}

/// Adds a number so many times.
pub(crate) fn push_number(
    files: &mut Vec<usize>,
    number: usize,
    count: usize,
) -> Result<(), AllocError>
    ensures { OnOk result (files.new.items ≡ files.old.items ++ replicate count number) }
{
    for _ in 0..count {
        files.push(number)?;
    }
    Ok(())
}

/// Adds items.
fn push_all<T: Drop>(found: &mut Vec<T>, more: Sequence<T>) -> Result<(), AllocError>
    ensures { OnOk result (found.new.items ≡ found.old.items ++ more) }
{
    for item in more.into_vec() {
        found.push(item)?;
    }
    Ok(())
}

impl Parts {
    /// Adds what an import brings.
    fn add(&mut self, file: usize, import: Source) -> Result<(), AllocError>
        ensures prequels { OnOk result (self.new.prequels.items ≡ self.old.prequels.items ++ filter declares import.prequels) }
        ensures rules { OnOk result (self.new.rules.items ≡ self.old.rules.items ++ import.rules) }
        ensures files { OnOk result (self.new.files.items ≡ self.old.files.items ++ replicate (length import.rules) file) }
        ensures modes { OnOk result (self.new.modes.items ≡ self.old.modes.items ++ import.modes) }
    {
        push_declared(&mut self.prequels, import.prequels)?;
        push_number(&mut self.files, file, import.rules.len())?;
        push_all(&mut self.rules, import.rules)?;
        push_all(&mut self.modes, import.modes)?;
        Ok(())
    }

    /// Adds what imports bring, in order. Their files count from 1.
    pub(crate) fn add_all(&mut self, imports: Vec<Source>) -> Result<(), AllocError>
        ensures prequels { OnOk result (self.new.prequels.items ≡ self.old.prequels.items ++ declared_by imports.items) }
        ensures rules { OnOk result (self.new.rules.items ≡ self.old.rules.items ++ flat_map (λ g. g.rules) imports.items) }
        ensures files { OnOk result (self.new.files.items ≡ self.old.files.items ++ file_numbers 1 imports.items) }
        ensures modes { OnOk result (self.new.modes.items ≡ self.old.modes.items ++ flat_map (λ g. g.modes) imports.items) }
    {
        let count = imports.len();
        let mut rest = imports.into_iter();
        for before in 0..count {
            let Some(import) = rest.next() else {
                return Ok(());
            };
            self.add(before + 1, import)?;
        }
        Ok(())
    }
}
