// The symbols that a vocabulary gives.
ghost use Rattle.std.specs.Prelude.{◌≡◌, ◌==◌, ◌≤◌, All, IfOk, ℕ};
ghost use Rattle.std.specs.BTreeSet.{contains};
ghost use Rattle.std.specs.List.{list_any};
ghost use Rattle.std.specs.Ordering.{nat_cmp};
ghost use Rattle.g4_token_file.specs.declared.entry.TokenKey.TheVariants.{Name};
ghost use Rattle.g4_tokens.specs.declared.symbol.TheConstants.{MOST_TYPES};
ghost use Rattle.g4_vocab.specs.Types.{type_of};
ghost use Rattle.g4_vocab.specs.Numbering.{literal_key, symbol_of, symbols_of_kind, types_without};
ghost use Rattle.g4_vocab.specs.Shown.{token_types};
ghost use Rattle.g4_vocab.specs.Tables.{reference_of};
ghost use Rattle.g4_vocab.specs.Vocabularies.{lexers_in, own_in, types_in};

use crate::by_type::by_type;
use crate::entries::names_of;
use crate::faces::shown_types;
use crate::kinds::types_without;
use crate::references::{Reference, reference_to};
use crate::types::{type_of_literal, type_of_name};
use crate::vocabulary::Vocabulary;
use g4_grammar::TokenTypes;
use g4_source::{AtomKind, TokenReference};
use g4_token_file::TokenTable;
use g4_tokens::{EOF, Symbols};
use std::alloc::{AllocError, Global};
use std::collections::BTreeSet;

impl Vocabulary<'_> {
    /// The symbol of a name.
    fn symbol_of_name(&self, name: &str) -> u32
        ensures { result ≡ type_of (types_in self.now) (Name name.now) }
    {
        type_of_name(&self.types, name)
    }

    /// The symbol of a literal.
    fn symbol_of_literal(&self, characters: &[char]) -> u32
        ensures { result ≡ type_of (types_in self.now)
            (literal_key (lexers_in self.now) characters.now) }
    {
        match self.wholes.named_rule(characters) {
            Some(name) => self.symbol_of_name(name),
            None => type_of_literal(&self.types, characters),
        }
    }

    /// The symbol of a token.
    fn symbol_of(&self, token: Reference) -> u32
        ensures { result ≡ symbol_of (lexers_in self.now) (types_in self.now)
            (reference_of token.entry) }
    {
        match token {
            Reference::Token(name) => {
                if name == "EOF" {
                    EOF
                } else {
                    self.symbol_of_name(name)
                }
            }
            Reference::Literal(literal) => self.symbol_of_literal(literal.characters.as_slice()),
        }
    }

    /// The symbols of tokens.
    fn symbols_of(
        &self,
        alloc: Global,
        tokens: &[TokenReference],
    ) -> Result<BTreeSet<u32>, AllocError>
        ensures { IfOk result (λ set. (s : ℕ) → contains nat_cmp set s
            ≡ list_any (λ token. symbol_of (lexers_in self.now) (types_in self.now) token ==
            s) tokens.now) }
    {
        let mut symbols = BTreeSet::new(alloc);
        for token in tokens {
            symbols.insert(self.symbol_of(reference_to(token)))?;
        }
        Ok(symbols)
    }

    /// All types but those of these tokens.
    fn types_without(&self, alloc: Global, tokens: &[TokenReference]) -> Result<Symbols, AllocError>
        ensures { IfOk result (λ set. set ≡ types_without (lexers_in self.now)
            (types_in self.now) tokens.now) }
    {
        let symbols = self.symbols_of(alloc, tokens)?;
        let types = types_without(alloc, &self.types, self.gaps.as_slice(), symbols)?;
        Ok(types)
    }

    /// The symbols of which an atom of a parser rule reads one. A rule's name, an action and a predicate read none.
    ///
    /// # Errors
    /// No memory.
    pub fn symbols_of_kind(&self, alloc: Global, kind: &AtomKind) -> Result<Symbols, AllocError>
        ensures { IfOk result (λ set. set ≡ symbols_of_kind (lexers_in self.now) (types_in self.now) kind.now) }
    {
        match kind {
            AtomKind::Token(name) => {
                let symbol = self.symbol_of(Reference::Token(name.text.as_str()));
                Symbols::one(alloc, symbol)
            }
            AtomKind::Literal(literal) => {
                let symbol = self.symbol_of(Reference::Literal(literal));
                Symbols::one(alloc, symbol)
            }
            AtomKind::Any => self.all.copy_of(alloc),
            AtomKind::NotTokens(tokens) => self.types_without(alloc, tokens.as_slice()),
            _ => Symbols::up_to(alloc, 0),
        }
    }

    /// The token types, to be kept without the rules.
    ///
    /// # Errors
    /// No memory.
    pub fn token_types(&self, alloc: Global) -> Result<TokenTypes, AllocError>
        ensures types { IfOk result (λ types. types ≡ token_types (lexers_in self.now) (own_in self.now) (types_in self.now)) }
        ensures names { IfOk result (λ types. All (λ name. name.symbol ≤ MOST_TYPES) types.names) }
        ensures literals { IfOk result (λ types. All (λ literal. literal.symbol ≤ MOST_TYPES) types.literals) }
    {
        let own = self.own.as_slice();
        let shown = shown_types(alloc, &self.wholes, own, &self.types)?;
        let names = names_of(alloc, self.types.entries())?;
        let literals = by_type(alloc, &self.types, own)?;
        Ok(TokenTypes {
            shown,
            names,
            literals,
        })
    }

    /// The table of the types, to be kept without the rules: so another grammar can be numbered that begins with it.
    pub fn into_table(self) -> TokenTable
        ensures { result ≡ types_in self.entry }
    {
        self.types
    }
}
