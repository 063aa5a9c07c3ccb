// The numbers of token names and of literals, found in the time of a few comparisons.
ghost use Rattle.std.specs.Prelude.{◌≡◌, None, Some, OnOk, if◌then◌else◌};
ghost use Rattle.g4_token_file.specs.Indexed.{numbered};
ghost use Rattle.g4_token_file.specs.Keys.{is_key};

use crate::entry::TokenKey;
use std::alloc::{AllocError, Global};
use std::collections::BTreeMap;

/// The numbers of token names and of literals.
#[derive(Drop)]
pub struct Numbers {
    pub names: BTreeMap<String, u32>,
    pub literals: BTreeMap<Vec<char>, u32>,
}

impl Numbers {
    /// Nothing has a number.
    pub fn new(alloc: Global) -> Self
        ensures { (key : TokenKey) → numbered result key ≡ None }
    {
        Numbers {
            names: BTreeMap::new(alloc),
            literals: BTreeMap::new(alloc),
        }
    }

    /// The number of a token name.
    pub fn of_name(&self, name: &str) -> Option<u32>
        ensures { result ≡ numbered self.now (TokenKey.Name name.now) }
    {
        self.names.get(name).copied()
    }

    /// The number of the literals that represent these characters.
    pub fn of_literal(&self, characters: &[char]) -> Option<u32>
        ensures { result ≡ numbered self.now (TokenKey.Literal characters.now) }
    {
        self.literals.get(characters).copied()
    }

    /// The number of the key.
    pub fn of_key(&self, key: &TokenKey) -> Option<u32>
        ensures { result ≡ numbered self.now key.now }
    {
        match key {
            TokenKey::Name(name) => self.of_name(name.as_str()),
            TokenKey::Literal(characters) => self.of_literal(characters.as_slice()),
        }
    }

    fn add_name(&mut self, alloc: Global, name: &str, number: u32) -> Result<(), AllocError>
        ensures { OnOk result ((key : TokenKey) → numbered self.new key
            ≡ (if is_key (TokenKey.Name name.now) key then Some number else numbered self.old key)) }
    {
        let name = String::from_str(alloc, name)?;
        self.names.insert(name, number)?;
        Ok(())
    }

    fn add_literal(
        &mut self,
        alloc: Global,
        characters: &[char],
        number: u32,
    ) -> Result<(), AllocError>
        ensures { OnOk result ((key : TokenKey) → numbered self.new key
            ≡ (if is_key (TokenKey.Literal characters.now) key then Some number else numbered self.old key)) }
    {
        let characters = characters.to_vec(alloc)?;
        self.literals.insert(characters, number)?;
        Ok(())
    }

    /// Gives the key this number.
    ///
    /// # Errors
    /// Memory runs out.
    pub fn add(&mut self, alloc: Global, key: &TokenKey, number: u32) -> Result<(), AllocError>
        ensures { OnOk result ((other : TokenKey) → numbered self.new other
            ≡ (if is_key key.now other then Some number else numbered self.old other)) }
    {
        match key {
            TokenKey::Name(name) => self.add_name(alloc, name.as_str(), number),
            TokenKey::Literal(characters) => {
                self.add_literal(alloc, characters.as_slice(), number)
            }
        }
    }
}
