// The starred lines of the bench, for reading, for writing and for the pool: one table and one claim that covers it. Nothing
// here runs.

#![tactic(auto)]
