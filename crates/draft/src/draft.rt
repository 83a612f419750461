// A grammar as it was read.
ghost use Rattle.draft.specs.Reading.{Reading};
ghost use Rattle.grammar.specs.Judged.{lent};

use grammar::Counts;
use lexer::Spelling;
use tables::Name;
use tree::Node;

// A text, the whole tables that hold its reading, and how many entries they have. It borrows them,
// so that nobody writes to them meanwhile, and only tables that were judged make one. It has the whole
// tables, since their unused places are promised too.
#[derive(Debug, Drop)]
pub struct Draft<'g> {
    pub(crate) text: &'g [u8],
    pub(crate) names: &'g [Name],
    pub(crate) kinds: &'g [Spelling],
    pub(crate) nodes: &'g [Node],
    pub(crate) counts: Counts,
    ghost reading: { Reading text.now (lent names.now kinds.now nodes.now) counts },
}
