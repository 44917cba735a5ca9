// What the read call answers, in the words of the grammar and of what OpenSMILES means by a line: the definitions in specs/ say
// when each answer is given, and with which tables, and the laws in proofs/ hold the read call's meaning to them. Nothing here
// runs.

#![tactic(auto)]
