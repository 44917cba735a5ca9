// What a walk over a simple graph says, told to the builder, builds the graph renumbered in walk order, and a graph that is
// walked without refusal is simple: the laws in proofs/ say so. Nothing here runs.

#![tactic(auto)]
