// A lent table while it is filled.
ghost use Rattle.std.specs.Prelude.{◌≤◌, length};

use crate::name::Name;
use lexer::{KINDS, Spelling};
use tree::Node;

// How many names and nodes a grammar can have.
pub const NAMES: usize = 64;

pub const NODES: usize = 1024;

// A lent table, and how many of its places are filled: the first ones, `LIMIT` at most. The caller
// supplies it, since its length decides refusals and its contents are promised.
#[derive(Drop)]
pub struct Filling<'a, E, const LIMIT: usize> {
    pub(crate) table: &'a mut [E],
    pub(crate) count: usize,
    ghost within: { count ≤ length table.now },
    ghost few: { count ≤ LIMIT },
}

pub type Names<'a> = Filling<'a, Name, NAMES>;

pub type Kinds<'a> = Filling<'a, Spelling, KINDS>;

pub type Nodes<'a> = Filling<'a, Node, NODES>;
