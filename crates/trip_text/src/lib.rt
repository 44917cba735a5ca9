// The line that a writer makes of events is read as these events: the law in proofs/ says so of every line whose atoms survive
// and that never has too many branches open. Nothing here runs.

#![tactic(auto)]
