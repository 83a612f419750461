// The trees of a rule that is being read: the nodes made so far, and the roots that wait for
// their parent.
ghost use Rattle.std.specs.Prelude.{◌≡◌, ◌<◌, ◌≤◌, length, MatchResult};
ghost use Rattle.grammar.specs.Forest.{roots_of, nodes_of, Reduced, Unreduced, BranchEnded, BranchFull, Bracketed, Unbracketed, Finished, Unfinished};
ghost use Rattle.grammar.specs.Parts.{reader, forest, with_forest};

use crate::opened::Opened;
use crate::parser::Parser;
use crate::piece::Bracket;
use tables::Full;
use tree::Class;

impl Parser<'_, '_> {
    // The roots from an index on get their parent, which waits no longer. That the index is within the
    // stack relates the two, so that no type of its own can say it.
    fn reduce(&mut self, class: Class, from: usize) -> Result<u16, Full>
        requires { from ≤ length (roots_of (forest self.old)) }
        ensures told { MatchResult result (Reduced class from (forest self.old) (forest self.new)) (Unreduced class from (forest self.old) (forest self.new)) }
        ensures beside { reader self.new ≡ with_forest (reader self.old) (forest self.new) }
    {
        let row = &self.waiting.as_slice()[from..];
        let node = self.nodes.complete(class, row)?;
        self.waiting.truncate(from);
        Ok(node)
    }

    // The roots from an index on are a sequence that ends, and waits as a branch.
    pub(crate) fn end_branch(&mut self, begin: usize) -> Result<(), Full>
        requires { begin ≤ length (roots_of (forest self.old)) }
        ensures told { MatchResult result (λ _. BranchEnded begin (forest self.old) (forest self.new)) (BranchFull begin (forest self.old) (forest self.new)) }
        ensures beside { reader self.new ≡ with_forest (reader self.old) (forest self.new) }
    {
        let node = self.reduce(Class::Chain, begin)?;
        self.waiting.push(node);
        Ok(())
    }

    // The node of brackets around branches; a rule's branches and parentheses have none.
    fn bracketed(&mut self, closing: Option<Bracket>, inside: u16) -> Result<u16, Full>
        requires { (length (roots_of (forest self.old)) < length (nodes_of (forest self.old))) × (inside < 1024) }
        ensures told { MatchResult result (Bracketed closing inside (forest self.old) (forest self.new)) (Unbracketed closing inside (forest self.old) (forest self.new)) }
        ensures beside { reader self.new ≡ with_forest (reader self.old) (forest self.new) }
    {
        match closing {
            None | Some(Bracket::Round) => Ok(inside),
            Some(Bracket::Square) => self.nodes.make(Class::Optional, 0, inside),
            Some(Bracket::Curly) => self.nodes.make(Class::Repetition, 0, inside),
        }
    }

    // At the mark that ends branches: their one node.
    pub(crate) fn finish(&mut self, opened: Opened) -> Result<u16, Full>
        requires { opened.begin ≤ length (roots_of (forest self.old)) }
        ensures told { MatchResult result (Finished opened (forest self.old) (forest self.new)) (Unfinished opened (forest self.old) (forest self.new)) }
        ensures beside { reader self.new ≡ with_forest (reader self.old) (forest self.new) }
    {
        self.end_branch(opened.begin)?;
        let inside = self.reduce(Class::Alternative, opened.from)?;
        self.bracketed(opened.closing, inside)
    }
}
