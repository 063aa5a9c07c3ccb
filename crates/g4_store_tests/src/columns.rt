// The columns of a small network.
use g4_base::Sequence;
use g4_classes::columns_of;
use g4_net::{ParserNetwork, State};
use g4_tokens::{END, EOF, Symbols};
use std::alloc::{AllocError, Global};
use std::test::Fail;

/// A network of two edges: one takes the types to 4, and the other type 2.
fn two_edges(alloc: Global) -> Result<ParserNetwork, AllocError> {
    let mut states = Vec::new(alloc);
    states.push(State::Edge(Symbols::up_to(alloc, 4)?, 0))?;
    states.push(State::Edge(Symbols::one(alloc, 2)?, 0))?;
    Ok(ParserNetwork {
        states: Sequence::new(states),
        callers: Sequence::new(Vec::new(alloc)),
        written: Sequence::new(Vec::new(alloc)),
    })
}

#[test]
fn columns_of_two_edges(rt: HostRuntime) -> Result<(), Fail> {
    let net = two_edges(rt.alloc())?;
    let columns = columns_of(rt.alloc(), &net)?;
    assert_eq!(rt; columns.count(), 3);
    for (symbol, column) in [(1, 0), (2, 1), (3, 0), (4, 0), (5, 2), (EOF, 2), (END, 2)] {
        assert_eq!(rt; columns.column_of(symbol), column, "of {symbol}");
    }
    Ok(())
}
