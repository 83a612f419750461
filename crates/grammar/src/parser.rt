// The parser of the notation: the tokens to come, a stack of roots, and the tables that it fills.
ghost use Rattle.std.specs.Prelude.{◌≤◌, length};
ghost use Rattle.grammar.specs.Forest.{Clean};
ghost use Rattle.grammar.specs.Sound.{AllSmall, small_prop, zero_name, zero_spelling};
ghost use Rattle.tables.specs.Filling.{entries};
ghost use Rattle.tables.specs.Nodes.{zero_node};

use crate::words::Words;
use arrayvec::ArrayVec;
use tables::{Kinds, NODES, Names, Nodes};

// The tables are lent to the parser. The roots that wait for their parent are as on the stack of
// a shift-reduce parser; each is a node of its own, so that there is room for them. The stack is no
// `Vec`, since judging may not fail for want of memory.
#[derive(Drop)]
pub(crate) struct Parser<'p, 'a> {
    pub words: &'p mut Words<'a>,
    pub waiting: ArrayVec<u16, NODES>,
    pub names: &'p mut Names<'a>,
    pub kinds: &'p mut Kinds<'a>,
    pub nodes: &'p mut Nodes<'a>,
    ghost names_clean: { Clean names.now zero_name },
    ghost kinds_clean: { Clean kinds.now zero_spelling },
    ghost nodes_clean: { Clean nodes.now zero_node },
    ghost few: { length waiting.items ≤ length (entries nodes.now) },
    ghost small: { AllSmall waiting.items } by { small_prop waiting.items },
}
