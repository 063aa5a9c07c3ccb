// The table of a `.tokens` file.
ghost use Rattle.std.specs.Prelude.{◌≡◌, ◌≤◌, None, [], ◌∷◌, ◌++◌, IfOk, IfSome};
ghost use Rattle.g4_tokens.specs.declared.symbol.TheConstants.{MOST_TYPES};
ghost use Rattle.g4_token_file.specs.Keys.{greatest_number, number_of};

use crate::entry::{TokenEntry, TokenKey};
use crate::numbers::Numbers;
use std::alloc::{AllocError, Global};
use std::marker::Model;

/// Token names and literals with their numbers, each once: those of a `.tokens` file, in the order of its lines, and what is added
/// to them. Contracts see the list of entries.
#[derive(Drop)]
pub struct TokenTable {
    entries: Vec<TokenEntry>,
    numbers: Numbers,
    greatest: u32,
}

impl Model for TokenTable {
    ghost use Rattle.std.specs.Prelude.{List};
    ghost use Rattle.g4_token_file.specs.declared.entry.TokenEntry.{TokenEntry};
    ghost use Rattle.g4_token_file.specs.Indexed.{IsIndexed};

    ghost Value = { List TokenEntry };

    ghost view = { λ t. t.entries.items };

    ghost invariant = { λ t. IsIndexed t.entries.items t.numbers t.greatest };
}

impl TokenTable {
    /// The table with no entry.
    pub fn new(alloc: Global) -> Self
        ensures { result ≡ [] }
    {
        TokenTable {
            entries: Vec::new(alloc),
            numbers: Numbers::new(alloc),
            greatest: 0,
        }
    }

    /// The entries in order.
    pub fn entries(&self) -> &[TokenEntry]
        ensures { result.now ≡ self.now }
    {
        self.entries.as_slice()
    }

    /// The greatest number: 0 where there is no entry.
    pub fn greatest(&self) -> u32
        ensures value { result ≡ greatest_number self.now }
        ensures within { greatest_number self.now ≤ MOST_TYPES }
    {
        self.greatest
    }

    /// The number of a token name.
    pub fn number_of_name(&self, name: &str) -> Option<u32>
        ensures value { result ≡ number_of self.now (TokenKey.Name name.now) }
        ensures within { IfSome result (λ number. number ≤ MOST_TYPES) }
    {
        self.numbers.of_name(name)
    }

    /// The number of the literals that represent these characters.
    pub fn number_of_literal(&self, characters: &[char]) -> Option<u32>
        ensures value { result ≡ number_of self.now (TokenKey.Literal characters.now) }
        ensures within { IfSome result (λ number. number ≤ MOST_TYPES) }
    {
        self.numbers.of_literal(characters)
    }

    /// The number of the key.
    pub(crate) fn number_of(&self, key: &TokenKey) -> Option<u32>
        ensures value { result ≡ number_of self.now key.now }
        ensures within { IfSome result (λ number. number ≤ MOST_TYPES) }
    {
        self.numbers.of_key(key)
    }

    /// The table with one entry more at its end, for what has no number yet.
    ///
    /// # Errors
    /// Memory runs out.
    pub fn with_entry(self, alloc: Global, entry: TokenEntry) -> Result<Self, AllocError>
        requires fresh { number_of self entry.key ≡ None }
        requires within { entry.number ≤ MOST_TYPES }
        ensures { IfOk result (λ table. table ≡ self ++ entry ∷ []) }
    {
        let TokenTable {
            mut entries,
            mut numbers,
            greatest,
        } = self;
        numbers.add(alloc, &entry.key, entry.number)?;
        let greatest = greatest.max(entry.number);
        entries.push(entry)?;
        Ok(TokenTable {
            entries,
            numbers,
            greatest,
        })
    }
}
