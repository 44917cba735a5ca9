// What can be said of a whole walk: the laws in proofs/ say that the writer refuses none of its events, how long its line can
// be, that so many turns end it, that tables with more room than the atoms need change nothing, and that it is the walk that
// specs/Plain.antt defines plainly, as a recursion over atoms and their entries. Nothing here runs.

#![tactic(auto)]
