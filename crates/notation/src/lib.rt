// What a grammar's text means and what reading it gives: definitions and their laws, and no code. The
// contracts of the crate above name them.
#![tactic(auto)]
