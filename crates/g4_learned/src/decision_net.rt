// The network with what a decision asks of it.
ghost use Rattle.std.specs.Prelude.{◌≡◌, ◌≤◌, ◌<◌, IfOk, length};
ghost use Rattle.g4_net.specs.declared.network.TheConstants.{MOST_STATES};
ghost use Rattle.g4_guards.specs.Levels.{IsCondition, IsDecision};
ghost use Rattle.g4_guards.specs.Tests.{HasTests};
ghost use Rattle.g4_net.specs.Loops.{HasLoops};
ghost use Rattle.g4_learned.specs.Tables.{AreTables, IsStartOf, column_of as column_at};

use crate::starts::{Starts, last_within};
use crate::tests::all_tests;
use g4_classes::{Columns, columns_of};
use g4_guards::Tests;
use g4_net::ParserNetwork;
use std::alloc::{AllocError, Global};
use std::marker::Model;

/// The network of a parser with the columns of its symbols and the starts of its decisions, each of which is a look-up.
#[derive(Drop)]
pub struct DecisionNet {
    net: ParserNetwork,
    columns: Columns,
    starts: Starts,
    tests: Vec<Tests>,
}

impl Model for DecisionNet {
    ghost use Rattle.g4_learned.specs.Tables.{AreKeys, HaveAllTests, Tables};

    ghost Value = { Tables };

    ghost view = { λ n. record { net = n.net; columns = n.columns.0; count = n.columns.1; starts = n.starts.keys.items } };

    ghost invariant = { λ n. AreKeys n.net n.net.states n.starts.first.items n.starts.keys.items × HaveAllTests n.net n.tests.items };
}

impl DecisionNet {
    /// The network with its tables.
    ///
    /// # Errors
    /// No memory.
    pub fn new(alloc: Global, net: ParserNetwork) -> Result<DecisionNet, AllocError>
        requires few { length net.states ≤ MOST_STATES }
        requires loops { HasLoops net }
        ensures net { IfOk result (λ n. n.net ≡ net) }
        ensures tables { IfOk result AreTables }
    {
        let columns = columns_of(alloc, &net)?;
        let starts = Starts::of(alloc, &net)?;
        let tests = all_tests(alloc, &net)?;
        Ok(DecisionNet {
            net,
            columns,
            starts,
            tests,
        })
    }

    /// The network.
    pub fn net(&self) -> &ParserNetwork
        ensures { result.now ≡ self.now.net }
    {
        &self.net
    }

    /// How many columns there are.
    pub fn columns(&self) -> u32
        ensures { result ≡ self.now.count }
    {
        self.columns.count()
    }

    /// How many starts there are.
    pub fn starts(&self) -> usize
        ensures { result ≡ length self.now.starts }
    {
        self.starts.keys.len()
    }

    /// The column of a symbol, and 0 where the number is no symbol. One look-up.
    pub fn column_of(&self, symbol: u32) -> u32
        ensures is { result ≡ column_at self.now symbol }
        ensures within { result < self.now.count }
    {
        self.columns.column_of(symbol)
    }

    /// What the alternatives of a decision begin with. One look-up.
    pub fn tests_of(&self, decision: u32) -> Tests
        requires { IsDecision self.now.net decision }
        ensures { HasTests self.now.net decision result }
    {
        self.tests[decision as usize]
    }

    /// The start of a decision under this condition: the same for conditions under which the same may be taken.
    pub fn start_of(&self, decision: u32, condition: u32) -> usize
        requires decision { IsDecision self.now.net decision }
        requires condition { IsCondition self.now.net decision condition }
        ensures { IsStartOf self.now decision condition result }
    {
        let low = self.starts.first[decision as usize];
        let high = self.starts.first[decision as usize + 1];
        last_within(self.starts.keys.as_slice(), low, high, condition)
    }
}
