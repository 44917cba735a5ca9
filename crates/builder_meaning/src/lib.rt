// What a builder's events make of a graph, as a definition that can be read: the laws in proofs/ say that the tables of
// `builder` and `read_line` come to the same. Nothing here runs.

#![tactic(auto)]
