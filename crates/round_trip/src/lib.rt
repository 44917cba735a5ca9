// What comes of a graph that is written and read back: the laws in proofs/ say that it is the same graph, renumbered in the
// order of the walk, and what else the read call can answer; and of a line that is read and written again, which answers it never
// gets. Nothing here runs.

#![tactic(auto)]
