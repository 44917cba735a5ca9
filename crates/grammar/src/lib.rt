// The grammar of lines: the definitions in specs/ give it as trees with their spelling and their meaning, and the laws in
// proofs/ hold the reader's definition against it. Nothing here runs.

#![tactic(auto)]
