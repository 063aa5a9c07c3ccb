// Why there are no times.
use std::alloc::AllocError;
use std::io;

/// Memory, the clock or the output failed; or a walk came to a word that held 0.
#[derive(Clone, Copy)]
pub enum Failure {
    NoMemory,
    System,
    NotLearned,
}

impl Failure {
    pub fn text(self) -> &'static str {
        match self {
            Failure::NoMemory => "out of memory",
            Failure::System => "the clock, the words or the output failed",
            Failure::NotLearned => "a walk did not go to its last column",
        }
    }
}

impl From<AllocError> for Failure {
    fn from(_error: AllocError) -> Failure {
        Failure::NoMemory
    }
}

impl From<io::Error> for Failure {
    fn from(_error: io::Error) -> Failure {
        Failure::System
    }
}
