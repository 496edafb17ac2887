// The worked edges: what the rules of the store and of the ledger come to at the ends of their ranges.

#![tactic(auto)]

ghost use Rattle.edges.specs.Worked.{WorkedEdges};

/// Names the theorem that the worked edges follow from what the calls promise.
pub fn worked_edges()
    ensures { WorkedEdges }
{}
