// The tables of a grammar while its text is read: each is lent, and filled from place 0 on.
#![tactic(auto)]

mod entries;
mod filling;
mod full;
mod name;
mod names;
mod nodes;
mod numbering;
mod spotted;
mod wipe;

pub use filling::{Filling, Kinds, NAMES, NODES, Names, Nodes};
pub use full::Full;
pub use lexer::KINDS;
pub use name::Name;
pub use spotted::{Spotted, clip};
pub use wipe::wipe_table;
