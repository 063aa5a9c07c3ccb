// A store that is opened, and no more.
use crate::numbers::{Number, Numbers, Salt};
use g4_store::automaton::Plan;
use g4_store::store::Opened;
use std::alloc::{AllocError, Global};

const ROWS: usize = 65_536;

const COLUMNS: usize = 200;

const STARTS: usize = 1000;

/// Opens a store, and gives the number of its words.
pub fn open(alloc: Global) -> Result<usize, AllocError> {
    let plan = Plan {
        rows: ROWS,
        columns: COLUMNS,
        starts: STARTS,
        net: Salt { salt: 7 },
    };
    let _opened = Opened::<Salt, Number, Numbers>::new(alloc, plan)?;
    Ok(ROWS + ROWS * COLUMNS + STARTS)
}
