// Groups, and where the ends of their rules lead down the stacks.
ghost use Rattle.std.specs.Prelude.{◌≡◌, [], IfOk, OnOk};
ghost use Rattle.g4_closure.specs.Ends.{AreEnds};
ghost use Rattle.g4_closure.specs.Returns.{AreFollowed, AreMore, AreReached};
ghost use Rattle.g4_configs.specs.Configs.{IsStacks};
ghost use Rattle.g4_configs.specs.Groups.{AreKnown};
ghost use Rattle.g4_net.specs.Leads.{WellFormed};

use crate::closure::returned;
use crate::exploring::Explored;
use g4_configs::{Configs, Group};
use g4_net::ParserNetwork;
use std::alloc::{AllocError, Global};
use std::collections::HashSet;

/// Of how many groups it is looked where the ends of their rules lead, at most.
const MOST_RETURNS: usize = 1_000_000_000;

/// Adds groups, each if it was not seen before.
fn push_new(
    seen: &mut HashSet<(u32, u32, u32)>,
    groups: &[Group],
    found: &mut Vec<Group>,
) -> Result<(), AllocError>
    ensures { OnOk result (AreMore groups.now found.old.items found.new.items) }
{
    for group in groups {
        if !seen.insert((group.state, group.alternative, group.stacks))? {
            continue;
        }
        found.push(*group)?;
    }
    Ok(())
}

/// Adds where a group leads from the end of its rule, if the rule can end before a symbol is read, as far as it was not seen before. The
/// list is there to be used again.
fn push_returns(
    net: &ParserNetwork,
    explored: &Explored,
    set: &Configs,
    group: Group,
    seen: &mut HashSet<(u32, u32, u32)>,
    led: &mut Vec<Group>,
    found: &mut Vec<Group>,
) -> Result<(), AllocError>
    requires well_formed { WellFormed net.now }
    requires ends { AreEnds net.now explored.now.marks.items }
    requires stacks { IsStacks set.now group.stacks }
    requires known { AreKnown set.now.graph found.old.items }
    ensures { OnOk result (AreFollowed net.now set.now group found.old.items found.new.items) }
{
    let Some(rule) = explored.ends(group.state) else {
        return Ok(());
    };
    led.clear();
    returned(set, net, group, rule, led)?;
    push_new(seen, led.as_slice(), found)?;
    Ok(())
}

/// Groups, and where these lead from the ends of their rules.
pub(crate) fn with_returns(
    alloc: Global,
    net: &ParserNetwork,
    explored: &mut Explored,
    set: &Configs,
    starts: &[Group],
) -> Result<Vec<Group>, AllocError>
    requires well_formed { WellFormed net.now }
    requires ends { AreEnds net.now explored.old.marks.items }
    requires known { AreKnown set.now.graph starts.now }
    ensures ends { AreEnds net.now explored.new.marks.items }
    ensures reached { IfOk result (λ found. AreReached net.now set.now.graph starts.now found.items) }
{
    let mut found: Vec<Group> = starts.iter().copied().collect(alloc)?;
    let mut led = Vec::new(alloc);
    let mut seen = HashSet::new(alloc);
    for next in 0..MOST_RETURNS {
        if next >= found.len() {
            return Ok(found);
        }
        let group = found[next];
        explored.explore(net, group.state)?;
        push_returns(net, explored, set, group, &mut seen, &mut led, &mut found)?;
    }
    Ok(found)
}
