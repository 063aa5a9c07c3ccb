// Names with their places, and labels.
ghost use Rattle.std.specs.Prelude.{◌≡◌, IfOk};

use g4_base::{Place, Text};
use std::alloc::{AllocError, Global};

/// A name, or another token that is reported as it is written, and its place.
#[derive(Drop)]
pub struct Name {
    pub text: Text,
    pub place: Place,
}

impl Name {
    /// The same name.
    ///
    /// # Errors
    /// No memory.
    pub fn copy_of(&self, alloc: Global) -> Result<Name, AllocError>
        ensures { IfOk result (λ copy. copy ≡ self.now) }
    {
        let text = Text::copy_of(alloc, self.text.as_str())?;
        Ok(Name {
            text,
            place: self.place,
        })
    }
}

/// A label of an element: `=`, or `+=` for a list.
#[derive(Drop)]
pub struct Label {
    pub name: Name,
    pub list: bool,
}

impl Label {
    /// The same label.
    ///
    /// # Errors
    /// No memory.
    pub fn copy_of(&self, alloc: Global) -> Result<Label, AllocError>
        ensures { IfOk result (λ copy. copy ≡ self.now) }
    {
        let name = self.name.copy_of(alloc)?;
        Ok(Label {
            name,
            list: self.list,
        })
    }
}

/// The same label, if there is one.
pub(crate) fn copy_of_label(
    alloc: Global,
    label: &Option<Label>,
) -> Result<Option<Label>, AllocError>
    ensures { IfOk result (λ copy. copy ≡ label.now) }
{
    match label {
        Some(label) => Ok(Some(label.copy_of(alloc)?)),
        None => Ok(None),
    }
}
