// What may happen, what workers are at, and what an event changes.

/// What may happen next: a worker claims a file, reads a start or a cell, adds a row, fills a start or a cell, or is done with its
/// file.
#[derive(Clone, Copy, Debug, PartialEq, Eq)]
pub enum Event {
    Claim(usize, usize),
    Probe(usize),
    LearnRow(usize),
    LearnCell(usize),
    Finish(usize),
}

/// What is read next along a path: its start, or the cell of this row and the column of this index.
#[derive(Clone, Copy, Debug, PartialEq, Eq)]
pub enum Place {
    Start,
    Cell(usize, usize),
}

/// What a worker is at.
#[derive(Clone, Copy, Debug, PartialEq, Eq)]
pub enum Phase {
    /// It has no file.
    Free,
    /// It reads along the path of a question, by file and number.
    Reading(usize, usize, Place),
    /// The path of a question, by file and number, is left to be learned. Once it has begun to learn it, no other worker learns.
    Learning(usize, usize, bool),
    /// All questions of this file are answered.
    Ended(usize),
}

/// What has come of a file.
#[derive(Clone, Copy, Debug, PartialEq, Eq)]
pub enum Progress {
    Waiting,
    Claimed,
    Finished,
}

/// What a filled start or cell holds: the number of a row, with its mark, or an end with its code.
#[derive(Clone, Copy, Debug, PartialEq, Eq)]
pub enum Entry {
    Row(usize, u32),
    End(u32),
}

/// The answer to a question: the end with this code, to which the column of index `at` leads.
#[derive(Clone, Copy, Debug, PartialEq, Eq)]
pub struct Given {
    pub file: usize,
    pub question: usize,
    pub code: u32,
    pub at: usize,
}

/// What is filled: a start with the number of a row, or the cell of this number.
#[derive(Clone, Copy, Debug, PartialEq, Eq)]
pub enum Slot {
    Start(usize, usize),
    Cell(usize, Entry),
}

/// What an event changes beside the phase of its worker.
#[derive(Drop)]
pub enum Effect<C> {
    Nothing,
    Claims(usize),
    Answers(Given),
    Adds(C),
    Fills(Slot),
    Finishes(usize),
}

/// What an event changes: the phase of a worker, and one thing more.
#[derive(Drop)]
pub struct Change<C> {
    pub worker: usize,
    pub phase: Phase,
    pub effect: Effect<C>,
}
