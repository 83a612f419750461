// The trees of grammars: the nodes of all the rules stand in one list, and tell each other by number.
#![tactic(auto)]

mod class;
mod node;

pub use class::Class;
pub use node::{NONE, Node};
