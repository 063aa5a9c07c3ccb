// Classes in networks of a few sets written by hand, and in networks of many sets.
ghost use Rattle.std.specs.Prelude.{◌<◌};

use crate::rows::{answered, cut, number, numbers, push_row};
use g4_base::Sequence;
use g4_classes::{Classes, classes_of};
use g4_net::{ParserNetwork, State};
use g4_tokens::{END, EOF, Symbols};
use std::alloc::{AllocError, Global};
use std::collections::BTreeSet;
use std::test::Fail;

/// What a row shows, the sets that the edges of a network take, and some numbers with their classes.
const TABLE: &str = "no edge |  => 1:1 2:1 MOST:1 EOF:1 END:1
two sets with one type in common | 1,2 2,3 => 1:1 2:2 3:3 4:4 EOF:4 END:4
all of four types but one | 1,3,4 => 1:1 2:2 3:1 4:1 5:2 EOF:2
sets within others, and one twice | 2,3,4 3,4 4 3,4 => 1:1 2:2 3:3 4:4 5:1
EOF and a type | 3,EOF => 1:1 2:1 3:3 4:1 EOF:3 END:1
END alone | END => 1:1 MOST:1 EOF:1 END:END
EOF alone | EOF => 1:1 EOF:EOF END:1
numbers that are no symbols | 0 4097 2,4097 => 0:0 1:1 2:2 3:1 4097:4097 65535:65535 65538:65538 4294967295:4294967295";

/// The numbers from 1 to before the greatest that are not among the members.
fn others(alloc: Global, members: &[u32], greatest: u32) -> Result<BTreeSet<u32>, AllocError> {
    let mut others = BTreeSet::new(alloc);
    for number in 1..greatest {
        if !members.contains(&number) {
            others.insert(number)?;
        }
    }
    Ok(others)
}

/// The set of these symbols.
fn set_of(alloc: Global, members: &[u32]) -> Result<Symbols, AllocError> {
    match members {
        [] => Symbols::up_to(alloc, 0),
        [one] => Symbols::one(alloc, *one),
        [.., greatest] => {
            let greatest = (*greatest).min(END);
            Symbols::up_to_without(alloc, greatest, &others(alloc, members, greatest)?)
        }
    }
}

/// The network of these states.
fn network_of(alloc: Global, states: Vec<State<Symbols>>) -> ParserNetwork {
    ParserNetwork {
        states: Sequence::new(states),
        callers: Sequence::new(Vec::new(alloc)),
        written: Sequence::new(Vec::new(alloc)),
    }
}

/// The network that has an edge for each of the sets, and an action before each.
fn network(alloc: Global, sets: &str) -> Result<ParserNetwork, AllocError> {
    let mut states = Vec::new(alloc);
    for set in sets.split_whitespace() {
        let members = numbers(alloc, set)?;
        states.push(State::Action(0))?;
        states.push(State::Edge(set_of(alloc, members.as_slice())?, 0))?;
    }
    Ok(network_of(alloc, states))
}

/// Adds the numbers that have other classes than the row has.
fn push_others(wrong: &mut String, row: &str, classes: &Classes) -> Result<(), AllocError> {
    let (asked, pairs) = answered(row);
    for pair in pairs.split_whitespace() {
        let (symbol, class) = pair.split_once(':').unwrap_or((pair, ""));
        if classes.class_of(number(symbol)) != number(class) {
            push_row(wrong, asked, pair)?;
        }
    }
    Ok(())
}

#[test]
fn classes_of_small_networks(rt: HostRuntime) -> Result<(), Fail> {
    let alloc = rt.alloc();
    let mut wrong = String::new(alloc);
    for row in TABLE.lines() {
        let net = network(alloc, cut(answered(row).0).1)?;
        let classes = classes_of(alloc, &net)?;
        push_others(&mut wrong, row, &classes)?;
    }
    assert_eq!(rt; wrong.as_str(), "");
    Ok(())
}

/// A network of `single` edges that take one of the first 4,000 types each, and then `wide` that take all types to 3,801, to
/// 3,802 and so on.
fn many_edges(alloc: Global, single: u32, wide: u32) -> Result<ParserNetwork, AllocError>
    requires { wide < 1000 }
{
    let mut states = Vec::new(alloc);
    for edge in 0..single {
        states.push(State::Edge(Symbols::one(alloc, edge % 4_000 + 1)?, 0))?;
    }
    for edge in 0..wide {
        states.push(State::Edge(Symbols::up_to(alloc, 3_801 + edge)?, 0))?;
    }
    Ok(network_of(alloc, states))
}

/// The classes of such a network.
fn many_classes(alloc: Global, single: u32, wide: u32) -> Result<Classes, AllocError>
    requires { wide < 1000 }
{
    let net = many_edges(alloc, single, wide)?;
    classes_of(alloc, &net)
}

/// Whether the types before this one have the first class, each later type its own, and EOF and END that of what no set has.
fn are_alone_from(classes: &Classes, first: u32) -> bool {
    (1..first).all(|symbol| classes.class_of(symbol) == 1)
        && (first..4_001).all(|symbol| classes.class_of(symbol) == symbol)
        && classes.class_of(EOF) == 4_001
        && classes.class_of(END) == 4_001
}

#[test]
fn classes_of_large_networks(rt: HostRuntime) -> Result<(), Fail> {
    for (single, first) in [(60_000, 1), (0, 3_802)] {
        let classes = many_classes(rt.alloc(), single, 200)?;
        assert!(rt;
            are_alone_from(&classes, first),
            "{single} edges of one type"
        );
    }
    Ok(())
}
