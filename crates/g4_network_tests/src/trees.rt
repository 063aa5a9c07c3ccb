// The nodes of trees, their places, and events.
use crate::tree_checks::{deep, tokens, tree};
use g4_base::Place;
use std::test::Fail;

#[test]
fn nodes_and_places(rt: HostRuntime) -> Result<(), Fail> {
    let tree = tree(rt.alloc(), "<11 0 <21 1 > 2 <21 > >")?;
    assert!(rt; tree.items().len() == 9);
    let nodes = tree.nodes(rt.alloc())?;
    assert_eq!(rt; nodes.as_slice(), [0, 2, 6].as_slice());
    let tokens = tokens(rt.alloc(), "abc")?;
    assert_eq!(rt; tree.place(2, tokens.as_slice()), Some(Place::START));
    assert_eq!(rt; tree.place(1, tokens.as_slice()), None);
    assert_eq!(rt; tree.place(2, &[]), None);
    Ok(())
}

#[test]
fn a_high_tree(rt: HostRuntime) -> Result<(), Fail> {
    let tree = deep(rt.alloc(), 20_000)?;
    assert!(rt; tree.items().len() == 60_000);
    let nodes = tree.nodes(rt.alloc())?;
    assert_eq!(rt; nodes.len(), 20_000);
    let events = tree.events(rt.alloc())?;
    assert_eq!(rt; events.len(), 60_000);
    Ok(())
}
