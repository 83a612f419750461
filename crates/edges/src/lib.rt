// Tests of the judging of grammars and of their drafts, at its edges.
#![tactic(auto)]

#[cfg(test)]
mod accepted;
#[cfg(test)]
mod large;
#[cfg(test)]
mod lent;
#[cfg(test)]
mod narrow;
#[cfg(test)]
mod refused;
#[cfg(test)]
mod told;
