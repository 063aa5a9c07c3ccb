// A work on files.
ghost use Rattle.std.specs.Prelude.{◌<◌, ◌++◌, ◌∷◌, [], ℕ, IfOk, List};

use std::alloc::AllocError;

/// What is done with each of so many files. All workers share it; each has a state of its own, and in the end these are joined in one.
pub trait Work<S, O>: Sync {
    /// How many files there are.
    ghost files: { Self → ℕ };

    /// What may become of the file of this number, whatever was done before.
    ghost is_outcome: { Self → ℕ → O → Type 0 };

    /// What a state is in which the states of these numbers are joined, and with which these files were worked on.
    ghost has_done: { Self → List ℕ → List ℕ → S → Type 0 };

    /// Does the work on a file, as this worker.
    ///
    /// # Errors
    /// No memory.
    fn run(&self, state: &mut S, worker: u32, file: u32) -> Result<O, AllocError>
        requires { file < files self.now }
        ensures outcome { IfOk result (is_outcome self.now file) }
        ensures done { (numbers done : List ℕ) → has_done self.now numbers done state.old
            → IfOk result (λ _. has_done self.now numbers (done ++ file ∷ []) state.new) };

    /// Joins the other state in this one.
    fn join(&self, state: &mut S, other: S)
        ensures { (numbers done others more : List ℕ) → has_done self.now numbers done state.old → has_done self.now others more other
            → has_done self.now (numbers ++ others) (done ++ more) state.new };
}
