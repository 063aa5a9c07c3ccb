// The commands, as their fields.
use g4_base::{Sequence, Text};

/// The most files of a command line.
pub const MOST_FILES: usize = 4_096;

/// The most workers that parse files at the same time.
pub const MOST_JOBS: u32 = 64;

/// How many workers there are where the words ask for no number.
pub const DEFAULT_JOBS: u32 = 4;

/// The most rows that the store of a parse may have.
pub const MOST_ROWS: u32 = 65_536;

/// How many rows the store has where the words ask for no number.
pub const DEFAULT_ROWS: u32 = 1_024;

/// What is written of a file that is accepted.
#[derive(Clone, Copy, Debug, PartialEq, Eq)]
pub enum Output {
    /// Its tree, in a line.
    Trees,
    /// The events of its tree, in a line each.
    Events,
    /// Its tokens, in a line each.
    Tokens,
}

/// `parse -g GRAMMAR -s RULE [-j JOBS] [-r ROWS] [-l LIB] [-f FLAGS] [--events | --tokens | --learned] FILE..`: parse files by a rule of
/// a grammar.
#[derive(Drop)]
pub struct Parse {
    /// The name of the grammar's file.
    pub grammar: Text,
    /// The name of the start rule.
    pub start: Text,
    /// The folder of all other files of the grammar, if one is named.
    pub library: Option<Text>,
    /// How many workers parse files, from 1 to `MOST_JOBS`.
    pub jobs: u32,
    /// How many rows the store has room for, from 1 to `MOST_ROWS`.
    pub rows: u32,
    /// The flags that predicates test, in the order of the words. Each is one or more ASCII letters, digits and `_`.
    pub flags: Sequence<Text>,
    /// What is written of each file.
    pub output: Output,
    /// Whether it is also written, after the trees, how much was learned.
    pub learned: bool,
    /// The names of the files to parse, in the order of the words.
    pub files: Sequence<Text>,
}

/// `check [-l LIB] GRAMMAR`: check a grammar.
#[derive(Drop)]
pub struct Check {
    /// The name of the grammar's file.
    pub grammar: Text,
    /// The folder of all other files of the grammar, if one is named.
    pub library: Option<Text>,
}

/// `atn [-l LIB] GRAMMAR RULE`: list the network of a rule.
#[derive(Drop)]
pub struct Atn {
    /// The name of the grammar's file.
    pub grammar: Text,
    /// The name of the rule.
    pub rule: Text,
    /// The folder of all other files of the grammar, if one is named.
    pub library: Option<Text>,
}

/// What a command line asks for.
#[derive(Drop)]
pub enum Command {
    /// Parse files.
    Parse(Parse),
    /// Check a grammar.
    Check(Check),
    /// List the network of a rule.
    Atn(Atn),
}
