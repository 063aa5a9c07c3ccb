// The tally of a store that all threads have left.
ghost use Rattle.std.specs.Prelude.{◌≡◌, ℕ, IfOk, List, string_bytes};
ghost use Rattle.g4_run.specs.Running.{RunOver};
ghost use Rattle.g4_store.specs.Views.{IsWhole};
ghost use Rattle.g4_tally.specs.Passed.{HasPassed, HaveSymbols};
ghost use Rattle.g4_tally.specs.Tallies.{IsTally, tally_line as line_of};

use crate::counts::{Counts, counts_of};
use g4_learned::{DecisionNet, Parsing, Pass, Row, Store};
use g4_store::view::Home;
use std::alloc::{AllocError, Global};

/// What a run has learned.
#[derive(Clone, Copy, Debug, PartialEq, Eq)]
pub enum Tally {
    /// So many rows and edges.
    Learned(Counts),
    /// The store had no room for some row.
    Full,
}

/// What was learned in a store by some runs, with a pass that all others were met into. The store is closed.
///
/// # Errors
/// No memory for a copy of the store's words.
pub fn tally_of<B: Home<DecisionNet>>(
    alloc: Global,
    store: Store<B>,
    pass: Pass<B>,
) -> Result<Tally, AllocError>
    requires whole { IsWhole pass.0 }
    ensures { (runs : List RunOver) → HaveSymbols runs → HasPassed B.plan runs pass
        → IfOk result (IsTally B.plan.rows B.plan.net.net runs) }
{
    let full = pass.was_full();
    match store.close(alloc, pass) {
        Ok(_) if full => Ok(Tally::Full),
        Ok(listing) => Ok(Tally::Learned(counts_of::<DecisionNet, Row, Parsing>(&listing))),
        Err(_) => Err(AllocError),
    }
}

/// The line of a tally: `learned R rows E edges`, or `learned full`.
///
/// # Errors
/// No memory.
pub fn tally_line(alloc: Global, tally: &Tally) -> Result<String, AllocError>
    ensures { IfOk result (λ line. string_bytes line ≡ line_of tally.now) }
{
    match tally {
        Tally::Learned(counts) => {
            let rows = counts.rows;
            let edges = counts.edges;
            let line = format!(in alloc; "learned {rows} rows {edges} edges\n")?;
            Ok(line)
        }
        Tally::Full => {
            let line = String::from_str(alloc, "learned full\n")?;
            Ok(line)
        }
    }
}
