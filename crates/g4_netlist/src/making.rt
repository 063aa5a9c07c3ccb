// In which order the states of a network are made, and how many predicates are made before a state.
ghost use Rattle.std.specs.Prelude.{◌≡◌, ◌++◌, IfOk, OnOk};
ghost use Rattle.g4_net.specs.Network.{state_at};
ghost use Rattle.g4_netlist.specs.Making.{AreOrders, order_of, predicate_order_by, predicates_before};

use g4_net::{ParserNetwork, State};
use g4_tokens::Symbols;
use std::alloc::{AllocError, Global};

/// The order of the state of this number among the states as they are made. In 128 bits there is room for twice any number.
fn order_of(net: &ParserNetwork, number: usize, state: &State<Symbols>) -> u128
    ensures { result ≡ order_of net.now number state.now }
{
    let own = number as u128;
    let first_of_bodies = 2 * (net.callers.len() as u128);
    match state {
        State::Predicate(_, target) if own < first_of_bodies => 2 * (*target as u128),
        _ => 2 * own + 1,
    }
}

/// Adds the order of the state of this number, if it is a predicate.
fn push_order(orders: &mut Vec<u128>, net: &ParserNetwork, number: usize) -> Result<(), AllocError>
    ensures { OnOk result (orders.new.items ≡ orders.old.items ++ predicate_order_by net.now number (state_at net.now number)) }
{
    match net.states.as_slice().get(number) {
        Some(state @ State::Predicate(_, _)) => {
            orders.push(order_of(net, number, state))?;
            Ok(())
        }
        _ => Ok(()),
    }
}

/// The orders of the network's predicates, least first.
pub(crate) fn predicate_orders(alloc: Global, net: &ParserNetwork) -> Result<Vec<u128>, AllocError>
    ensures { IfOk result (λ orders. AreOrders net.now orders.items) }
{
    let mut orders = Vec::new(alloc);
    for number in 0..net.states.len() {
        push_order(&mut orders, net, number)?;
    }
    orders.sort_unstable();
    Ok(orders)
}

/// How many predicates of the network are made before the state of this number, where `orders` are those of its predicates.
pub(crate) fn predicates_before(
    net: &ParserNetwork,
    orders: &[u128],
    number: usize,
    state: &State<Symbols>,
) -> usize
    requires { AreOrders net.now orders.now }
    ensures { result ≡ predicates_before net.now number state.now }
{
    let order = order_of(net, number, state);
    orders.partition_point(|other| *other < order)
}
