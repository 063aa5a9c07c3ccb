// Sets of names, which contracts see as lists of names in some order.
ghost use Rattle.std.specs.Prelude.{◌≡◌, ℕ, List, [], ◌||◌, IfOk, OnOk, not, option_map};
ghost use Rattle.std.specs.Str.{bytes_eq};
ghost use Rattle.g4_checks.specs.Names.{is_one_of};
ghost use Rattle.g4_checks.specs.Known.{AddsAll};

use g4_base::Text;
use std::alloc::{AllocError, Global};
use std::collections::BTreeSet;
use std::marker::Model;

/// Names to be looked up, which contracts see as a list of them.
#[derive(Drop)]
pub struct Names<'a> {
    set: BTreeSet<&'a str>,
}

impl<'a> Model for Names<'a> {
    ghost use Rattle.std.specs.Prelude.{List, ℕ, map};

    ghost Value = { List (List ℕ) };

    ghost view = { λ names. map (λ key. key.now) names.set.keys };
}

impl<'a> Names<'a> {
    /// No names.
    pub fn new(alloc: Global) -> Self
        ensures { result ≡ [] }
    {
        Names {
            set: BTreeSet::new(alloc),
        }
    }

    /// Whether the text is one of the names.
    pub fn has(&self, text: &str) -> bool
        ensures { result ≡ is_one_of self.now text.now }
    {
        self.set.contains(text)
    }

    /// Adds a name, and says whether it is new.
    ///
    /// # Errors
    /// No memory.
    pub fn add(&mut self, name: &'a str) -> Result<bool, AllocError>
        ensures new { IfOk result (λ is_new. is_new ≡ not (is_one_of self.old name.now)) }
        ensures added { OnOk result ((text : List ℕ) → is_one_of self.new text ≡ (is_one_of self.old text || bytes_eq text name.now)) }
    {
        let is_new = self.set.insert(name)?;
        Ok(is_new)
    }

    /// Adds names.
    ///
    /// # Errors
    /// No memory.
    pub fn add_all(&mut self, more: &'a [Text]) -> Result<(), AllocError>
        ensures { OnOk result (AddsAll self.old more.now self.new) }
    {
        for name in more {
            self.add(name.as_str())?;
        }
        Ok(())
    }
}

/// A copy of the name, where there is one.
///
/// # Errors
/// No memory.
pub fn copied(alloc: Global, name: Option<&str>) -> Result<Option<Text>, AllocError>
    ensures { IfOk result (λ copy. copy ≡ option_map (λ n. n.now) name.entry) }
{
    match name {
        Some(name) => {
            let copy = Text::copy_of(alloc, name)?;
            Ok(Some(copy))
        }
        None => Ok(None),
    }
}
