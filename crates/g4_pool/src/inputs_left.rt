// The files of a run whose bytes are still needed.
ghost use Rattle.std.specs.Prelude.{◌≡◌, ◌<◌, IfOk, IfSome, Some, length, map, slice_get};

use g4_base::Sequence;
use g4_outcome::Input;
use std::alloc::{AllocError, Global};
use std::marker::{Brand, Model, PhantomData};
use std::sync::{Mutex, Wait};

/// Names the inputs of a run.
pub trait InputsHome {
    ghost use Rattle.std.specs.Prelude.{List};
    ghost use Rattle.g4_outcome.specs.declared.input.Input.{Input as InputOf};

    ghost inputs: { List InputOf };
}

impl InputsHome for Brand {
    ghost use Rattle.std.specs.Prelude.{[]};

    ghost inputs = { [] };
}

/// The inputs of a run, and of no other, in their places, but for those whose files are done: their memory is given back.
#[derive(Drop)]
pub struct InputsLeft<I: InputsHome> {
    left: Vec<Option<Input>>,
    home: PhantomData<I>,
}

impl<I: InputsHome> Model for InputsLeft<I> {
    ghost use Rattle.std.specs.Prelude.{ℕ, length};
    ghost use Rattle.g4_pool.specs.InputsLeft.{AreLeft};

    ghost Value = { ℕ };

    ghost view = { λ _. length I.inputs };

    ghost invariant = { λ l. AreLeft I.inputs l.left.items };
}

/// The same content.
fn copy_input(alloc: Global, input: &Input) -> Result<Input, AllocError>
    ensures { IfOk result (λ copy. copy ≡ input.now) }
{
    match input {
        Input::Bytes(bytes) => {
            let copy = bytes.as_slice().to_vec(alloc)?;
            Ok(Input::Bytes(Sequence::new(copy)))
        }
        Input::TooLarge(size) => Ok(Input::TooLarge(*size)),
    }
}

/// Each of these, in its place.
fn all_left(alloc: Global, inputs: Vec<Input>) -> Result<Vec<Option<Input>>, AllocError>
    ensures { IfOk result (λ left. left.items ≡ map Some inputs.items) }
{
    let mut left = Vec::new(alloc);
    for input in inputs {
        left.push(Some(input))?;
    }
    Ok(left)
}

impl<I: InputsHome> InputsLeft<I> {
    /// All inputs of the run.
    ///
    /// # Errors
    /// No memory.
    pub fn new(alloc: Global, inputs: Vec<Input>) -> Result<InputsLeft<I>, AllocError>
        requires own { inputs.items ≡ I.inputs }
    {
        let left = all_left(alloc, inputs)?;
        Ok(InputsLeft {
            left,
            home: PhantomData,
        })
    }

    /// A copy of the input of the file of this number, unless the file is done.
    ///
    /// # Errors
    /// No memory.
    fn copy(&self, alloc: Global, file: u32) -> Result<Option<Input>, AllocError>
        requires file { file < length I.inputs }
        ensures { IfOk result (λ copy. IfSome copy (λ input. slice_get I.inputs file ≡ Some input)) }
    {
        match &self.left[file as usize] {
            Some(input) => {
                let copy = copy_input(alloc, input)?;
                Ok(Some(copy))
            }
            None => Ok(None),
        }
    }

    /// The file of this number is done.
    fn give_back(&mut self, file: u32)
        requires file { file < length I.inputs }
    {
        self.left[file as usize] = None;
    }
}

/// A copy of the input of the file of this number. There is none of a file that is done.
///
/// # Errors
/// No memory, or the file is done.
pub fn copy_left<I: InputsHome, R: Wait>(
    rt: &R,
    alloc: Global,
    inputs: &Mutex<InputsLeft<I>>,
    file: u32,
) -> Result<Input, AllocError>
    requires file { file < length I.inputs }
    ensures { IfOk result (λ input. slice_get I.inputs file ≡ Some input) }
{
    let copy = inputs.lock(rt).copy(alloc, file)?;
    match copy {
        Some(input) => Ok(input),
        None => Err(AllocError),
    }
}

/// Gives the memory of an input back, where its file is done.
pub fn give_back<I: InputsHome, R: Wait>(
    rt: &R,
    inputs: &Mutex<InputsLeft<I>>,
    file: u32,
    done: bool,
)
    requires file { file < length I.inputs }
{
    if done {
        inputs.lock(rt).give_back(file);
    }
}
