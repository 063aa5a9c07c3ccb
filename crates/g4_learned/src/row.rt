// Rows of the parser's automaton.
ghost use Rattle.std.specs.Prelude.{◌≡◌, ◌↔◌, IsTrue, IfOk};

use g4_configs::Snapshot;
use g4_store::automaton::Content;
use std::alloc::{AllocError, Global};
use std::marker::Model;
use std::sync::Arc;

/// A set of configurations with its code, by which it is found. Copies share the set.
#[derive(Drop)]
pub struct Row {
    snapshot: Arc<Snapshot>,
    code: u64,
}

impl Model for Row {
    ghost use Rattle.std.specs.Prelude.{◌≡◌, List};
    ghost use Rattle.g4_configs.specs.Hashing.{row_code};
    ghost use Rattle.g4_net.specs.Configurations.{Config};

    ghost Value = { List Config };

    ghost view = { λ r. r.snapshot.value };

    ghost invariant = { λ r. r.code ≡ row_code r.snapshot.value };
}

impl Row {
    /// The row of a set.
    ///
    /// # Errors
    /// No memory.
    pub fn of(alloc: Global, snapshot: Snapshot) -> Result<Row, AllocError>
        ensures { IfOk result (λ row. row ≡ snapshot) }
    {
        let code = snapshot.code(alloc)?;
        let snapshot = Arc::new(alloc, snapshot)?;
        Ok(Row { snapshot, code })
    }

    /// The set.
    pub fn snapshot(&self) -> &Snapshot
        ensures { result.now ≡ self.now }
    {
        &self.snapshot
    }
}

impl Content for Row {
    ghost use Rattle.g4_configs.specs.Hashing.{row_code};

    ghost code = { row_code };

    fn hash(&self) -> u64 {
        self.code
    }

    fn same(&self, other: &Row) -> bool {
        self.snapshot.same(&other.snapshot)
    }

    fn copy(&self, _alloc: Global) -> Result<Row, AllocError> {
        let snapshot = Arc::try_clone(&self.snapshot)?;
        Ok(Row {
            snapshot,
            code: self.code,
        })
    }
}
