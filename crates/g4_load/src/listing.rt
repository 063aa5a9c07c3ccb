// The listing of a rule of the grammar in a file.
ghost use Rattle.std.specs.Prelude.{◌≡◌, IfOk, Some, option_map};
ghost use Rattle.g4_net.specs.AddedRule.{IsReady};
ghost use Rattle.g4_load.specs.Counting.{Counts};
ghost use Rattle.g4_fetch.specs.Files.{Files};
ghost use Rattle.g4_load.specs.Listing.{FromRule, IsStartListing, IsStartRule, Lists};
ghost use Rattle.g4_load.specs.Stages.{AfterFetches, GivesOrHalts, IsAnswerOf};

use crate::fault::CheckError;
use crate::interpreter::{lay, names_of};
use crate::loading::{Loaded, load};
use crate::stop::{Halt, fault_of};
use g4_base::{Octets, Text};
use g4_net::{ParserNetwork, State};
use g4_netlist::list_rule;
use g4_ports::Shelf;
use std::alloc::{AllocError, Global};

/// The rule that the added rule calls.
fn start_rule(net: &ParserNetwork) -> u32
    requires { IsReady net.now }
    ensures { IsStartRule net.now result }
{
    match net.states.as_slice().first() {
        Some(State::Call { rule, .. }) => *rule,
        _ => 0,
    }
}

/// The listing of the start rule of a network of rules of these names, where these are shown of the token types.
fn list_start(
    alloc: Global,
    names: &[Text],
    shown: &[Text],
    net: &ParserNetwork,
) -> Result<Octets, AllocError>
    requires { IsReady net.now }
    ensures { IfOk result (IsStartListing names.now shown.now net.now) }
{
    let rule = start_rule(net);
    let listing = list_rule(alloc, names, shown, net, rule)?;
    Ok(listing)
}

/// The listing of the rule of this name of a grammar.
fn list_from(alloc: Global, grammar: &Loaded, rule: &str) -> Result<Octets, CheckError>
    ensures { IsAnswerOf (FromRule rule.now grammar.now) result }
{
    let names = names_of(alloc, grammar.rules.as_slice())?;
    let net = lay(alloc, &grammar.rules, rule)?;
    let listing = list_start(alloc, names.as_slice(), grammar.shown.as_slice(), &net)?;
    Ok(listing)
}

/// The listing of the rule of this name of the grammar in the file of this name, with all that it imports from the library, or else from
/// the folder of that file: the states of the rule in the network of which it is the start rule.
///
/// # Errors
/// The first file that is absent or too large, the first fault of the grammar or of its network, a fetch that failed, or no memory.
pub fn list_named<S: Shelf>(
    alloc: Global,
    shelf: &mut S,
    library: Option<&str>,
    name: &str,
    rule: &str,
) -> Result<Octets, Halt>
    ensures keeps { S.told shelf.new ≡ S.told shelf.old }
    ensures content { (files : Files) → S.told shelf.old ≡ Some files
        → GivesOrHalts (AfterFetches (Lists files (option_map (λ l. l.now) library.entry) name.now rule.now)) result }
    ensures counts { Counts ⊥ (S.faults shelf.old) (S.faults shelf.new) (S.misses shelf.old) (S.misses shelf.new) result }
{
    let grammar = load(alloc, shelf, library, name)?;
    match list_from(alloc, &grammar, rule) {
        Ok(listing) => Ok(listing),
        Err(CheckError::Fault(fault)) => Err(Halt::Stop(fault_of(alloc, name, fault)?)),
        Err(CheckError::NoMemory) => Err(Halt::NoMemory),
    }
}
