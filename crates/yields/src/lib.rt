// What the nodes of a grammar yield, and what FIRST and FOLLOW are: definitions and their laws, and no code.
#![tactic(auto)]
