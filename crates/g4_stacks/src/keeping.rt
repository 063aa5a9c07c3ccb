// A law of graphs that grow, for clients with loops.
ghost use Rattle.std.specs.Prelude.{List};
ghost use Rattle.g4_stacks.specs.Graph.{Content, Keeps};

/// A graph that keeps the nodes of one that keeps those of a third keeps those of the third.
pub fn keeps_is_transitive()
    ensures { (a b c : List Content) → Keeps a b → Keeps b c → Keeps a c }
{}
