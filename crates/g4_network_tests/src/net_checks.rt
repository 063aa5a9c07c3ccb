// Small networks, worked out by hand, and large ones.
use crate::rows::{answered, cut, numbers, push_row};
use g4_base::Sequence;
use g4_net::{Network, State};
use g4_net_check::check_net;
use std::alloc::{AllocError, Global};
use std::test::Fail;

/// A state by its kind and what it leads to: the target, a rule and perhaps a return state, or the targets of a decision.
fn state_of(alloc: Global, text: &str) -> Result<State<u32>, AllocError> {
    let (kind, to) = text.split_once(' ').unwrap_or((text, ""));
    let numbers = numbers(alloc, to)?;
    let (first, second) = match numbers.as_slice() {
        [] => (0, 0),
        [first] => (*first, 0),
        [first, second, ..] => (*first, *second),
    };
    Ok(match kind {
        "end" => State::End(first),
        "edge" => State::Edge(0, first),
        "call" => State::Call {
            rule: first,
            level: 0,
            back: second,
        },
        "predicate" => State::Predicate(0, first),
        "level" => State::Level(0, first),
        "action" => State::Action(first),
        "empty" => State::Empty(first),
        _ => State::Decision(Sequence::new(numbers)),
    })
}

/// The states of a network of two rules, the first of which calls the other. Both may read nothing.
const STATES: &str = "call 1,4
end 0
decision 5,6
end 1
empty 1
edge 3
empty 3";

/// Changes states: each change, with `/` between two, is the number of a state and the new state.
fn change(alloc: Global, states: &mut Vec<State<u32>>, changes: &str) -> Result<(), AllocError> {
    for change in changes.split('/') {
        let (number, state) = change.split_once(' ').unwrap_or((change, ""));
        let state = state_of(alloc, state)?;
        if let Some(place) = states.get_mut(number.parse::<usize>().unwrap_or(usize::MAX)) {
            *place = state;
        }
    }
    Ok(())
}

/// The states of this network, some of them changed.
fn states_of(alloc: Global, changes: &str) -> Result<Vec<State<u32>>, AllocError> {
    let mut states = Vec::new(alloc);
    for line in STATES.lines() {
        states.push(state_of(alloc, line)?)?;
    }
    change(alloc, &mut states, changes)?;
    Ok(states)
}

/// A list of numbers for each word.
fn lists_of(alloc: Global, text: &str) -> Result<Vec<Sequence<u32>>, AllocError> {
    let mut all = Vec::new(alloc);
    for word in text.split_whitespace() {
        all.push(Sequence::new(numbers(alloc, word)?))?;
    }
    Ok(all)
}

/// Whether a network of these states and callers, with this many numbers of alternatives, is well formed.
fn is_well_formed(
    alloc: Global,
    states: Vec<State<u32>>,
    callers: Vec<Sequence<u32>>,
    written: usize,
) -> Result<bool, AllocError> {
    let net = Network {
        states: Sequence::new(states),
        callers: Sequence::new(callers),
        written: Sequence::new(vec![in alloc; 0u32; written]?),
    };
    check_net(alloc, &net)
}

/// What a network shows, its states that are changed, the callers of its rules, and whether it is well formed.
const NUMBERS: &str = "all is right |  | _ 4 => yes
a rule that is not called |  | _ 4 _ => yes
too few states |  | _ 4 _ _ => no
no such target | 5 edge 7 | _ 4 => no
no such rule | 4 call 2,1 | _ 4 => no
an end of no rule | 3 end 2 | _ 4 => no
one alternative | 2 decision 5 | _ 4 => no
a caller is missing |  | _ _ => no
a caller too many |  | 4 4 => no
in any order | 4 call 1,1 | _ 1,4,1 => yes";

/// The same of networks with and without a cycle in which nothing is read.
const CYCLES: &str = "two states | 4 empty 6/6 empty 4 | _ 4 => no
it reads | 4 edge 6/6 empty 4 | _ 4 => yes
a predicate | 4 predicate 4 | _ 4 => no
a level | 4 level 4 | _ 4 => no
an action | 4 action 4 | _ 4 => no
left recursion | 5 call 1,3 | _ 4,3 => no
an empty call | 4 call 1,4 | _ 4 => no
no empty call | 4 call 1,4/6 edge 3 | _ 4 => yes";

/// Whether the changed network with these callers is well formed.
fn answer(alloc: Global, changes: &str, callers: &str) -> Result<&'static str, AllocError> {
    let states = states_of(alloc, changes)?;
    let callers = lists_of(alloc, callers)?;
    let yes = is_well_formed(alloc, states, callers, 7)?;
    Ok(if yes { "yes" } else { "no" })
}

/// The rows that have another answer.
fn wrong_rows(alloc: Global, rows: &str) -> Result<String, AllocError> {
    let mut wrong = String::new(alloc);
    for row in rows.lines() {
        let (asked, wanted) = answered(row);
        let (changes, callers) = cut(cut(asked).1);
        let found = answer(alloc, changes, callers)?;
        if found != wanted {
            push_row(&mut wrong, asked, found)?;
        }
    }
    Ok(wrong)
}

#[test]
fn small_networks(rt: HostRuntime) -> Result<(), Fail> {
    for rows in [NUMBERS, CYCLES] {
        let wrong = wrong_rows(rt.alloc(), rows)?;
        assert_eq!(rt; wrong.as_str(), "");
    }
    Ok(())
}

#[test]
fn a_number_is_missing(rt: HostRuntime) -> Result<(), Fail> {
    let alloc = rt.alloc();
    let states = states_of(alloc, "")?;
    let callers = lists_of(alloc, "_ 4")?;
    assert!(rt; !is_well_formed(alloc, states, callers, 6)?);
    Ok(())
}

/// Whether a chain of 60,000 states, of which the last leads back by this edge, is well formed.
fn chain_is_well_formed(alloc: Global, last: State<u32>) -> Result<bool, AllocError> {
    let mut states = Vec::new(alloc);
    for target in 1..60_000u32 {
        states.push(State::Empty(target))?;
    }
    states.push(last)?;
    is_well_formed(alloc, states, Vec::new(alloc), 60_000)
}

#[test]
fn long_chain(rt: HostRuntime) -> Result<(), Fail> {
    let alloc = rt.alloc();
    assert!(rt; chain_is_well_formed(alloc, State::Edge(0, 0))?, "it reads");
    assert!(rt;
        !chain_is_well_formed(alloc, State::Empty(0))?,
        "it reads nothing"
    );
    Ok(())
}

/// Whether a network of 30,000 rules, each of which calls the next one and the last begins with this state, is well formed.
fn rules_are_well_formed(
    alloc: Global,
    last: State<u32>,
    callers_of_first: &[u32],
) -> Result<bool, AllocError> {
    let mut states = Vec::new(alloc);
    let mut callers = vec![in alloc; Sequence::new(callers_of_first.to_vec(alloc)?)]?;
    for rule in 0..29_999u32 {
        let back = 2 * rule + 1;
        let rule = rule + 1;
        states.push(State::Call {
            rule,
            level: 0,
            back,
        })?;
        states.push(State::End(rule - 1))?;
        callers.push(Sequence::new(vec![in alloc; back]?))?;
    }
    states.push(last)?;
    states.push(State::End(29_999))?;
    is_well_formed(alloc, states, callers, 60_000)
}

#[test]
fn many_rules(rt: HostRuntime) -> Result<(), Fail> {
    let alloc = rt.alloc();
    let empty = State::Empty(59_999);
    assert!(rt; rules_are_well_formed(alloc, empty, &[])?, "no cycle");
    let call = State::Call {
        rule: 0,
        level: 0,
        back: 59_999,
    };
    assert!(rt; !rules_are_well_formed(alloc, call, &[59_999])?, "a cycle");
    Ok(())
}
