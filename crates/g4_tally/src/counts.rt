// The counts of a listing.
ghost use Rattle.std.specs.Prelude.{◌≡◌, count_by, length};
ghost use Rattle.g4_store.specs.Words.{Stands};
ghost use Rattle.g4_store.specs.Closing.{Closes};
ghost use Rattle.g4_store.specs.declared.view.View.{View};
ghost use Rattle.g4_tally.specs.Counts.{AreFilled, is_filled};

use g4_store::automaton::Automaton;
use g4_store::listing::Listing;

/// How much an automaton has learned.
#[derive(Clone, Copy, Debug, PartialEq, Eq)]
pub struct Counts {
    /// How many rows it has.
    pub rows: usize,
    /// How many cells are filled, each of a row and a column.
    pub edges: usize,
}

/// How many of the words are filled.
fn filled_among(words: &[u64]) -> usize
    ensures { result ≡ count_by is_filled words.now }
{
    words.iter().filter(|word| **word != 0).count()
}

/// How much the automaton of a listing has learned.
pub fn counts_of<N: Drop, C: Drop, A: Automaton<N, C>>(listing: &Listing<N, C>) -> Counts
    requires { (pass : View C) × Closes A.starts A.leads listing.now.plan pass listing.now.words.items listing.now.rows.items }
    ensures { AreFilled (Stands listing.now.plan listing.now.words.items listing.now.rows.items) result }
{
    let plan = &listing.plan;
    let cells = &listing.words[plan.rows..listing.words.len() - plan.starts];
    Counts {
        rows: listing.rows.as_slice().len(),
        edges: filled_among(cells),
    }
}
