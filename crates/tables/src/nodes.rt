// Nodes, and rows of them.
ghost use Rattle.std.specs.Prelude.{◌≡◌, MatchResult};
ghost use Rattle.notation.specs.Tables.{join, link as linked};
ghost use Rattle.tables.specs.Filling.{entries, IsNew, RestKept, IsFull};
ghost use Rattle.tables.specs.Nodes.{zero_node, NodeMade, RowEnded, RowRefused};

use crate::filling::Nodes;
use crate::full::Full;
use tree::{Class, NONE, Node};

impl<'a> Nodes<'a> {
    // A table without nodes: every place is 0.
    pub fn empty(table: &'a mut [Node]) -> Self
        ensures empty { IsNew table.old zero_node result }
        ensures loan { result.table.ghost_name ≡ table.entry.ghost_name }
    {
        Self::new(table, Node::default())
    }
}

impl Nodes<'_> {
    // One more node, with no sibling yet; refused where the table is full.
    pub fn make(&mut self, class: Class, value: u16, first: u16) -> Result<u16, Full>
        ensures told { MatchResult result (NodeMade class value first self.old self.new) (IsFull self.old self.new) }
        ensures loan { self.new.table.ghost_name ≡ self.old.table.ghost_name }
    {
        let number = self.push(Node {
            class,
            value,
            first,
            next: NONE,
        })?;
        Ok(number as u16)
    }

    // The second node is the next sibling of the first.
    fn join_nodes(&mut self, node: u16, next: u16)
        ensures nodes { entries self.new ≡ join node next (entries self.old) }
        ensures kept { RestKept self.old self.new }
        ensures loan { self.new.table.ghost_name ≡ self.old.table.ghost_name }
    {
        let node = node as usize;
        if node < self.count {
            self.table[node].next = next;
        }
    }

    // Each node of the row is the next sibling of the one before it.
    fn link_row(&mut self, row: &[u16])
        ensures nodes { entries self.new ≡ linked row.now (entries self.old) }
        ensures kept { RestKept self.old self.new }
        ensures loan { self.new.table.ghost_name ≡ self.old.table.ghost_name }
    {
        for pair in row.windows(2).rev() {
            self.join_nodes(pair[0], pair[1]);
        }
    }

    // A node over a row of others, of that class; a row of one is its own, and one of none an
    // empty node.
    pub fn complete(&mut self, class: Class, row: &[u16]) -> Result<u16, Full>
        ensures told { MatchResult result (RowEnded class row.now self.old self.new) (RowRefused class row.now self.old self.new) }
        ensures loan { self.new.table.ghost_name ≡ self.old.table.ghost_name }
    {
        match row {
            [] => self.make(Class::Empty, 0, NONE),
            [only] => Ok(*only),
            [first, ..] => {
                self.link_row(row);
                self.make(class, 0, *first)
            }
        }
    }
}
