// Laws of graphs of stacks.
ghost use Rattle.g4_stacks.specs.Listing.{ListsAreExact, ListsAreInOrder, ListsAreCanonical};

/// The list of a node's stacks has these and no others.
pub fn lists_are_exact()
    ensures { ListsAreExact }
{}

/// The list of a node's stacks is in order.
pub fn lists_are_in_order()
    ensures { ListsAreInOrder }
{}

/// Two nodes, of one graph or of two, have equal lists exactly where they have the same stacks.
pub fn lists_are_canonical()
    ensures { ListsAreCanonical }
{}
