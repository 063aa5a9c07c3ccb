// The listing of a rule.
ghost use Rattle.std.specs.Prelude.{◌≡◌, ◌++◌, IfOk, OnOk, length};
ghost use Rattle.g4_net.specs.Network.{state_at};
ghost use Rattle.g4_netlist.specs.Listing.{IsListing, line_by, lines_of};
ghost use Rattle.g4_netlist.specs.Making.{AreOrders};
ghost use Rattle.g4_netlist.specs.Searching.{marked};

use crate::line::{push_line, push_name};
use crate::making::{predicate_orders, predicates_before};
use crate::search::states_of;
use crate::shown::push;
use g4_base::{Octets, Sequence, Text};
use g4_net::ParserNetwork;
use std::alloc::{AllocError, Global};

/// Adds the line of the state of this number, if there is one. `orders` are those of the network's predicates, least first.
fn push_state(
    alloc: Global,
    out: &mut Vec<u8>,
    names: &[Text],
    shown: &[Text],
    net: &ParserNetwork,
    orders: &[u128],
    number: usize,
) -> Result<(), AllocError>
    requires { AreOrders net.now orders.now }
    ensures { OnOk result (out.new.items ≡ out.old.items ++ line_by names.now shown.now net.now number (state_at net.now number)) }
{
    match net.states.as_slice().get(number) {
        Some(state) => {
            let before = predicates_before(net, orders, number, state);
            push_line(alloc, out, names, shown, before, number, state)
        }
        None => Ok(()),
    }
}

/// Adds the lines of the states that are marked, by number.
fn push_marked(
    alloc: Global,
    out: &mut Vec<u8>,
    names: &[Text],
    shown: &[Text],
    net: &ParserNetwork,
    found: &[bool],
) -> Result<(), AllocError>
    ensures { OnOk result (out.new.items ≡ out.old.items ++ lines_of names.now shown.now net.now (marked found.now (length found.now))) }
{
    let orders = predicate_orders(alloc, net)?;
    for number in 0..found.len() {
        if !found[number] {
            continue;
        }
        push_state(alloc, out, names, shown, net, orders.as_slice(), number)?;
    }
    Ok(())
}

/// Lists the states of a rule: the rule's name, then a line for each state of the rule, by number. Each ends in a newline.
///
/// `names` are the names of the rules from 1 on, and `shown` is what is shown of the token types from 1 on. Rule 0 is the added
/// rule `S'`, a rule past the last name has none, and of a rule that starts past the last state the name alone is listed.
///
/// # Errors
/// No memory.
pub fn list_rule(
    alloc: Global,
    names: &[Text],
    shown: &[Text],
    net: &ParserNetwork,
    rule: u32,
) -> Result<Octets, AllocError>
    ensures { IfOk result (IsListing names.now shown.now net.now rule) }
{
    let found = states_of(alloc, net, rule)?;
    let mut out = Vec::new(alloc);
    push_name(&mut out, names, rule)?;
    push(&mut out, "\n")?;
    push_marked(alloc, &mut out, names, shown, net, found.as_slice())?;
    Ok(Sequence::new(out))
}
