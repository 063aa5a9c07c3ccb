// The class of a character.
ghost use Rattle.std.specs.Prelude.{◌≡◌, ◌<◌, IfOk};
ghost use Rattle.g4_chars.specs.CharSets.{IsCanonical};
ghost use Rattle.g4_matching.specs.Classes.{AreClasses, IsTable, TellsStates, ranges_at};
ghost use Rattle.g4_matching.specs.Partitions.{IsPartition, TellsSet, class_in, classing};

use crate::joining::joined;
use crate::partition::Partition;
use g4_chars::Range;
use g4_net::State;
use g4_ordered::{LexerNetwork, Reads};
use std::alloc::{AllocError, Global};
use std::marker::Model;

/// How many characters have their classes in a table: those of ASCII.
const TABLE_SIZE: u32 = 128;

/// Classes of characters: two characters are in one class where no edge distinguishes them, and only there. Contracts see the bounds
/// between parts of the characters, the class of each part, and how many classes there are.
#[derive(Drop)]
pub struct CharClasses {
    partition: Partition,
    /// The classes of the first characters.
    table: Vec<u32>,
}

impl Model for CharClasses {
    ghost use Rattle.g4_matching.specs.Classes.{IsTable};
    ghost use Rattle.g4_matching.specs.Partitions.{Classing, IsPartition, classing};

    ghost Value = { Classing };

    ghost view = { λ c. classing c.partition };

    ghost invariant = { λ c. IsPartition (classing c.partition) × IsTable (classing c.partition) c.table.items };
}

/// The classes of the first characters.
fn table_of(alloc: Global, partition: &Partition) -> Result<Vec<u32>, AllocError>
    requires { IsPartition (classing partition.now) }
    ensures { IfOk result (λ table. IsTable (classing partition.now) table.items) }
{
    let mut table = Vec::new(alloc);
    for character in 0..TABLE_SIZE {
        table.push(partition.class_of(character))?;
    }
    Ok(table)
}

/// The characters that the edge of a state takes; none, if it has no such edge.
fn ranges_of(state: &State<Reads>) -> &[Range]
    ensures ranges { result.now ≡ ranges_at state.now }
    ensures canonical { IsCanonical result.now }
{
    match state {
        State::Edge(Reads::Characters(set), _) => set.ranges(),
        _ => &[],
    }
}

/// The classes by the edge of one state.
fn of_state(alloc: Global, state: &State<Reads>) -> Result<Partition, AllocError>
    ensures partition { IfOk result (λ p. IsPartition (classing p)) }
    ensures tells { IfOk result (λ p. TellsSet (ranges_at state.now) (classing p)) }
{
    let partition = Partition::of_ranges(alloc, ranges_of(state))?;
    Ok(partition)
}

/// The classes by the edges of states. They are joined from those of halves of the states, so that many edges take little time.
fn of_states(alloc: Global, states: &[State<Reads>]) -> Result<Partition, AllocError>
    ensures partition { IfOk result (λ p. IsPartition (classing p)) }
    ensures tells { IfOk result (λ p. TellsStates states.now (classing p)) }
{
    match states {
        [] => Partition::whole(alloc),
        [state] => of_state(alloc, state),
        _ => {
            let (front, back) = states.split_at(states.len() / 2);
            let front = of_states(alloc, front)?;
            let back = of_states(alloc, back)?;
            let partition = joined(alloc, front, back)?;
            Ok(partition)
        }
    }
}

impl CharClasses {
    /// The fewest classes of the characters whose members no edge of a network distinguishes. Takes time in proportion to n and twice
    /// log n, where n is how many ranges all sets of the network have.
    ///
    /// # Errors
    /// No memory.
    pub fn of_network(alloc: Global, net: &LexerNetwork) -> Result<CharClasses, AllocError>
        ensures { IfOk result (λ classes. AreClasses net.now classes) }
    {
        let partition = of_states(alloc, net.states.as_slice())?;
        let table = table_of(alloc, &partition)?;
        Ok(CharClasses { partition, table })
    }

    /// The same classes.
    ///
    /// # Errors
    /// No memory.
    pub fn copy(&self, alloc: Global) -> Result<CharClasses, AllocError>
        ensures { IfOk result (λ classes. classes ≡ self.now) }
    {
        let partition = self.partition.copy(alloc)?;
        let table = self.table.as_slice().to_vec(alloc)?;
        Ok(CharClasses { partition, table })
    }

    /// How many classes there are. They are numbered from 0.
    pub fn count(&self) -> usize
        ensures { result ≡ self.now.count }
    {
        self.partition.count
    }

    /// The class of a character.
    pub fn class_of(&self, character: char) -> usize
        ensures class { result ≡ class_in self.now character }
        ensures within { result < self.now.count }
    {
        match self.table.get(character as usize) {
            Some(class) => *class as usize,
            None => self.partition.class_of(character as u32) as usize,
        }
    }
}
