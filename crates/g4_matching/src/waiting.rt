// Entries that wait, and what they lead to without a character.
ghost use Rattle.std.specs.Prelude.{◌≡◌, ◌<◌, [], ◌∷◌, ◌++◌, ◌||◌, ℕ, OnOk, Some, MatchOption, length, map, reverse};
ghost use Rattle.g4_net.specs.Network.{start_of, state_at};
ghost use Rattle.g4_ordered.specs.Configurations.{at, at_with, through};
ghost use Rattle.g4_ordered.specs.Leads.{leads, leads_by, leads_past, returned};
ghost use Rattle.g4_ordered.specs.Lists.{ReadAll};
ghost use Rattle.g4_ordered.specs.Network.{is_reluctant};
ghost use Rattle.g4_ordered.specs.Starts.{starts_of};
ghost use Rattle.g4_matching.specs.Entries.{AreKnown, IsKnown, Takes, config_of, configs_of, moved_to, placed, stacked};
ghost use Rattle.g4_matching.specs.Waiting.{Adds};

use crate::entry::Entry;
use crate::returns::Returns;
use g4_net::State;
use g4_ordered::{LexerNetwork, Reads, Start};
use std::alloc::{AllocError, Global};

/// Entries that wait, the next of them last, and the store of their return states.
#[derive(Drop)]
pub(crate) struct Waiting {
    pub entries: Vec<Entry>,
    pub returns: Returns,
}

/// Puts an entry at each of the states, the first on top.
fn push_each(entries: &mut Vec<Entry>, from: Entry, states: &[u32]) -> Result<(), AllocError>
    ensures { OnOk result (reverse entries.new.items ≡ map (placed from) states.now ++ reverse entries.old.items) }
{
    for state in states.iter().rev() {
        entries.push(Entry {
            state: *state as usize,
            ..from
        })?;
    }
    Ok(())
}

/// Whether a decision with these targets is reluctant.
fn is_reluctant(targets: &[u32]) -> bool
    ensures { result ≡ is_reluctant targets.now }
{
    match targets {
        [exit, body, ..] => *body < *exit,
        _ => false,
    }
}

/// Whether what goes to one of these targets of a decision has passed a reluctant one, as it had or by this one.
fn passes(targets: &[u32], passed: bool) -> bool
    ensures { result ≡ is_reluctant targets.now || passed }
{
    is_reluctant(targets) || passed
}

/// Where an edge of the state leads by the character.
fn read_to(net: &LexerNetwork, state: usize, character: char) -> Option<usize>
    ensures { MatchOption result ((t : ℕ) → Takes net.now character state t → ⊥) (λ t. Takes net.now character state t) }
{
    match net.states.as_slice().get(state) {
        Some(State::Edge(Reads::Characters(set), target)) if set.contains(character) => {
            Some(*target as usize)
        }
        _ => None,
    }
}

/// Puts the entry at the state on top, if there is one.
fn push_moved(
    entries: &mut Vec<Entry>,
    entry: &Entry,
    target: Option<usize>,
) -> Result<(), AllocError>
    ensures { OnOk result (entries.new.items ≡ entries.old.items ++ moved_to entry.now target) }
{
    if let Some(state) = target {
        entries.push(Entry { state, ..*entry })?;
    }
    Ok(())
}

impl Waiting {
    /// No entries.
    pub fn new(alloc: Global) -> Waiting
        ensures { result.returns ≡ [] ∷ [] }
    {
        Waiting {
            entries: Vec::new(alloc),
            returns: Returns::new(alloc),
        }
    }

    /// Puts the return to the newest open call on top, if there is one.
    fn push_returned(&mut self, from: Entry) -> Result<(), AllocError>
        requires known { IsKnown self.old.returns from }
        requires waiting { AreKnown self.old.returns self.old.entries.items }
        ensures { OnOk result (let c = config_of self.old.returns from in Adds self.old self.new (returned c c.returns)) }
    {
        if let Some((state, returns)) = self.returns.top(from.returns) {
            self.entries.push(Entry {
                state: state as usize,
                returns,
                ..from
            })?;
        }
        Ok(())
    }

    /// Puts on top where an edge with a label leads without a character.
    fn push_past(
        &mut self,
        last: bool,
        label: &Reads,
        from: Entry,
        target: u32,
    ) -> Result<(), AllocError>
        requires known { IsKnown self.old.returns from }
        requires waiting { AreKnown self.old.returns self.old.entries.items }
        ensures { OnOk result (Adds self.old self.new (leads_past last label.now (config_of self.old.returns from) target)) }
    {
        match label {
            Reads::Characters(_) => Ok(()),
            Reads::EndOfText => {
                if last {
                    push_each(&mut self.entries, from, &[target])?;
                }
                Ok(())
            }
        }
    }

    /// Puts the targets of a decision on top.
    fn push_through(&mut self, from: Entry, targets: &[u32]) -> Result<(), AllocError>
        requires known { IsKnown self.old.returns from }
        requires waiting { AreKnown self.old.returns self.old.entries.items }
        ensures { OnOk result (Adds self.old self.new
            (map (through (is_reluctant targets.now) (config_of self.old.returns from)) targets.now)) }
    {
        let passed = passes(targets, from.passed);
        push_each(&mut self.entries, Entry { passed, ..from }, targets)?;
        Ok(())
    }

    /// Puts the start of a rule that is called on top.
    fn push_called(&mut self, from: Entry, rule: u32, back: u32) -> Result<(), AllocError>
        requires known { IsKnown self.old.returns from }
        requires waiting { AreKnown self.old.returns self.old.entries.items }
        ensures { OnOk result (let c = config_of self.old.returns from in
            Adds self.old self.new (at_with c (start_of rule) (back ∷ c.returns) ∷ [])) }
    {
        let returns = self.returns.push(back, from.returns)?;
        let state = 2 * rule as usize;
        self.entries.push(Entry {
            state,
            returns,
            ..from
        })?;
        Ok(())
    }

    /// Puts the target of an empty edge on top.
    fn push_empty(&mut self, from: Entry, target: u32) -> Result<(), AllocError>
        requires known { IsKnown self.old.returns from }
        requires waiting { AreKnown self.old.returns self.old.entries.items }
        ensures { OnOk result (Adds self.old self.new (at (config_of self.old.returns from) target ∷ [])) }
    {
        push_each(&mut self.entries, from, &[target])?;
        Ok(())
    }

    /// Puts on top where the edges of a state lead without a character.
    fn push_by(&mut self, last: bool, state: &State<Reads>, from: Entry) -> Result<(), AllocError>
        requires known { IsKnown self.old.returns from }
        requires waiting { AreKnown self.old.returns self.old.entries.items }
        ensures { OnOk result (Adds self.old self.new (leads_by last (Some state.now) (config_of self.old.returns from))) }
    {
        match state {
            State::Decision(targets) => self.push_through(from, targets.as_slice()),
            State::End(_) => self.push_returned(from),
            State::Edge(label, target) => self.push_past(last, label, from, *target),
            State::Call { rule, back, .. } => self.push_called(from, *rule, *back),
            State::Predicate(_, target) => self.push_empty(from, *target),
            State::Level(_, target) => self.push_empty(from, *target),
            State::Action(target) => self.push_empty(from, *target),
            State::Empty(target) => self.push_empty(from, *target),
        }
    }

    /// Puts on top what an entry leads to without a character, the first on top.
    pub fn push_leads(
        &mut self,
        net: &LexerNetwork,
        last: bool,
        from: Entry,
    ) -> Result<(), AllocError>
        requires known { IsKnown self.old.returns from }
        requires waiting { AreKnown self.old.returns self.old.entries.items }
        ensures { OnOk result (Adds self.old self.new (leads net.now last (config_of self.old.returns from))) }
    {
        match net.states.as_slice().get(from.state) {
            None => Ok(()),
            Some(state) => {
                self.push_by(last, state, from)?;
                Ok(())
            }
        }
    }

    /// Makes the starts wait, and nothing else.
    pub fn begin(&mut self, starts: &[Start]) -> Result<(), AllocError>
        ensures same { OnOk result (self.new.returns ≡ self.old.returns) }
        ensures known { OnOk result (AreKnown self.new.returns self.new.entries.items) }
        ensures waiting { OnOk result (stacked self.new.returns self.new.entries.items ≡ starts_of starts.now) }
    {
        self.returns.is_whole();
        self.entries.clear();
        for start in starts.iter().rev() {
            self.entries.push(Entry {
                state: start.state as usize,
                rule: start.rule,
                alternative: start.alternative,
                returns: 0,
                passed: false,
            })?;
        }
        Ok(())
    }

    /// Makes what a list leads to by a character wait, and nothing else.
    pub fn read(
        &mut self,
        net: &LexerNetwork,
        list: &[Entry],
        character: char,
    ) -> Result<(), AllocError>
        requires { AreKnown self.old.returns list.now }
        ensures same { OnOk result (self.new.returns ≡ self.old.returns) }
        ensures known { OnOk result (AreKnown self.new.returns self.new.entries.items) }
        ensures waiting { OnOk result (ReadAll net.now character (configs_of self.new.returns list.now)
            (stacked self.new.returns self.new.entries.items)) }
    {
        self.entries.clear();
        for entry in list.iter().rev() {
            let target = read_to(net, entry.state, character);
            push_moved(&mut self.entries, entry, target)?;
        }
        Ok(())
    }
}
