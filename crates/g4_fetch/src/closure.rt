// A grammar with all that it imports.
use g4_base::{Sequence, Text};
use g4_source::Source;
use g4_token_file::TokenTable;

/// A grammar and the name under which it was fetched.
#[derive(Drop)]
pub struct GrammarFile {
    pub name: Text,
    pub source: Source,
}

/// An import: the numbers of the files of both grammars, and the name that the one imports.
#[derive(Drop)]
pub struct Import {
    pub importer: usize,
    pub imported: usize,
    pub name: Text,
}

/// A grammar with all that it imports.
#[derive(Drop)]
pub struct WithImports {
    /// The files in the order in which they are fetched, each once. The grammar itself is the first and has the number 0.
    pub files: Sequence<GrammarFile>,
    /// All imports of these files in the order in which they are tested: after those of the imported grammar.
    pub imports: Sequence<Import>,
}

/// A grammar with all that it imports and with its vocabulary: what the option `tokenVocab` names. In a parser grammar that is a grammar,
/// in a lexer or combined grammar a file of tokens. A lexer grammar that is the vocabulary of a parser grammar has one of its own.
#[derive(Drop)]
pub struct Fetched {
    /// The grammar with all that it imports; after these, of a parser grammar, the grammar that it names, and what that imports.
    pub grammar: WithImports,
    /// The number of the lexer grammar that a parser grammar names: the first after all that the parser grammar imports.
    pub lexer: Option<usize>,
    /// The numbers that the file of tokens gives; none where no such file is named.
    pub table: TokenTable,
}
