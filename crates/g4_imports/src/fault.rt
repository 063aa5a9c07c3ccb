// Why grammars do not become one.
use g4_base::Text;

/// Why a grammar does not become one with those that it imports. The variants are in the order in which they are looked for.
#[derive(Drop)]
pub enum ImportFault {
    /// A file, and the name of the first of its rules whose name an earlier rule of it has.
    RuleTwice { file: Text, rule: Text },
    /// A file, and the name by which it imports a grammar of a kind that it cannot import.
    BadImport { file: Text, name: Text },
}
