// The nodes of a tree.
use crate::class::Class;

// The number that stands for no child and for no sibling: the tables of a grammar are of numbers.
pub const NONE: u16 = 1024;

// A node: its class, its value (the kind of a token, the number of a name, otherwise 0), its first
// child and its next sibling, each by number.
#[derive(Clone, Copy, Debug, Default, PartialEq, Eq)]
pub struct Node {
    pub class: Class,
    pub value: u16,
    pub first: u16,
    pub next: u16,
}
