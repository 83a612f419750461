// Judging the text of a grammar.
ghost use Rattle.std.specs.Prelude.{◌≡◌, map, Some, MatchResult};
ghost use Rattle.grammar.specs.Judged.{lent, Accepted, Rejected};
ghost use Rattle.grammar.specs.Filled.{behind, Fresh, Filled, Unfilled};
ghost use Rattle.grammar.specs.Notation.{notation_kinds};
ghost use Rattle.tokens.specs.Layered.{Layered};

use crate::marks::vocabulary;
use crate::parser::Parser;
use crate::refusal::Refusal;
use crate::words::Words;
use arrayvec::ArrayVec;
use lexer::Spelling;
use tables::{Filling, Kinds, Name, Names, Nodes, wipe_table};
use tokens::layered;
use tree::{Class, Node};

// What stands in unused places: constants, so that a static table can begin with them.
pub const ZERO_NAME: Name = Name {
    place: 0,
    length: 0,
    root: 0,
};

pub const ZERO_SPELLING: Spelling = Spelling {
    place: 0,
    length: 0,
};

pub const ZERO_NODE: Node = Node {
    class: Class::Empty,
    value: 0,
    first: 0,
    next: 0,
};

// How many entries each table has.
#[derive(Clone, Copy, Debug, Default, PartialEq, Eq)]
pub struct Counts {
    pub names: usize,
    pub kinds: usize,
    pub nodes: usize,
}

// Reads the tokens of a text into tables without entries.
fn read_all<'p, 'a>(
    words: &'p mut Words<'a>,
    names: &'p mut Names<'a>,
    kinds: &'p mut Kinds<'a>,
    nodes: &'p mut Nodes<'a>,
) -> Result<Counts, Refusal>
    requires { Layered (map Some notation_kinds) words.old.text.now words.old.source × Fresh names.old kinds.old nodes.old }
    ensures told { MatchResult result (Filled words.old.text.now (behind names.old kinds.old nodes.old) (behind names.new kinds.new nodes.new)) (Unfilled words.old.text.now (behind names.old kinds.old nodes.old) (behind names.new kinds.new nodes.new)) }
    ensures names_loan { names.new.table.ghost_name ≡ names.old.table.ghost_name }
    ensures kinds_loan { kinds.new.table.ghost_name ≡ kinds.old.table.ghost_name }
    ensures nodes_loan { nodes.new.table.ghost_name ≡ nodes.old.table.ghost_name }
{
    let mut parser = Parser {
        words,
        waiting: ArrayVec::new(),
        names,
        kinds,
        nodes,
    };
    parser.rules()?;
    Ok(Counts {
        names: parser.names.len(),
        kinds: parser.kinds.len(),
        nodes: parser.nodes.len(),
    })
}

// Reads a text into the tables. Where it is refused, what was read stays there. The tables are three
// parameters, since the caller supplies them one by one and gets them back so.
fn fill<'a>(
    text: &'a [u8],
    names: &'a mut [Name],
    kinds: &'a mut [Spelling],
    nodes: &'a mut [Node],
) -> Result<Counts, Refusal>
    ensures { MatchResult result (Filled text.now (lent names.old kinds.old nodes.old) (lent names.new kinds.new nodes.new)) (Unfilled text.now (lent names.old kinds.old nodes.old) (lent names.new kinds.new nodes.new)) }
{
    let source = layered(text, vocabulary())?;
    let mut words = Words { source, text };
    let mut names = Filling::new(names, ZERO_NAME);
    let mut kinds = Filling::new(kinds, ZERO_SPELLING);
    let mut nodes = Nodes::empty(nodes);
    read_all(&mut words, &mut names, &mut kinds, &mut nodes)
}

// Judges the text of a grammar. Where it is one, the tables hold it from place 0 on and 0 after
// it, and the answer counts their entries; where it is refused, every place of every table is 0.
pub fn judge(
    text: &[u8],
    names: &mut [Name],
    kinds: &mut [Spelling],
    nodes: &mut [Node],
) -> Result<Counts, Refusal>
    ensures { MatchResult result (Accepted text.now (lent names.old kinds.old nodes.old) (lent names.new kinds.new nodes.new)) (Rejected text.now (lent names.old kinds.old nodes.old) (lent names.new kinds.new nodes.new)) }
{
    let answer = fill(text, names, kinds, nodes);
    if answer.is_err() {
        wipe_table(names, ZERO_NAME);
        wipe_table(kinds, ZERO_SPELLING);
        wipe_table(nodes, ZERO_NODE);
    }
    answer
}
