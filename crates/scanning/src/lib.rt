// What it is to cut a text into tokens: definitions and their laws, and no code. The contracts of
// the crate above name them.
#![tactic(auto)]
