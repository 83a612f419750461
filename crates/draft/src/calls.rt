// What can be asked of a draft.
ghost use Rattle.std.specs.Prelude.{◌≡◌, take};
ghost use Rattle.draft.specs.Drafted.{borrowed, drafted};
ghost use Rattle.grammar.specs.Judged.{lent, GrammarHeld};
ghost use Rattle.notation.specs.Shaped.{IsWellFormed};

use crate::draft::Draft;
use grammar::Counts;
use lexer::Spelling;
use tables::Name;
use tree::Node;

impl<'g> Draft<'g> {
    // The draft of a text that was judged, over the tables that judging filled: three, as the caller
    // lent them.
    pub fn make(
        text: &'g [u8],
        names: &'g [Name],
        kinds: &'g [Spelling],
        nodes: &'g [Node],
        counts: Counts,
    ) -> Draft<'g>
        requires { GrammarHeld text.now (lent names.now kinds.now nodes.now) counts }
        ensures text { result.text.now ≡ text.now }
        ensures tables { borrowed result ≡ lent names.now kinds.now nodes.now }
        ensures counts { result.counts ≡ counts }
    {
        Draft {
            text,
            names,
            kinds,
            nodes,
            counts,
        }
    }
}

impl Draft<'_> {
    // The text. Of every draft: its tables hold the one grammar that its text is.
    pub fn text(&self) -> &[u8]
        ensures value { result.now ≡ self.now.text.now }
        ensures meaning { GrammarHeld self.now.text.now (borrowed self.now) self.now.counts }
    {
        self.text
    }

    // How many names, kinds and nodes there are. Of every draft: children lie below their parents
    // and siblings rise, every node but the roots is the child of one node, each name has a root
    // of its own, values are in range, chains and alternatives have two children or more,
    // options and repetitions one.
    pub fn shape(&self) -> Counts
        ensures value { result ≡ self.now.counts }
        ensures tree { IsWellFormed (drafted self.now) }
    {
        self.counts
    }

    // The nodes, each by its number.
    pub fn nodes(&self) -> &[Node]
        ensures { result.now ≡ (drafted self.now).nodes }
    {
        &self.nodes[..self.counts.nodes]
    }

    // The names, each by its number.
    pub fn names(&self) -> &[Name]
        ensures { result.now ≡ take self.now.counts.names self.now.names.now }
    {
        &self.names[..self.counts.names]
    }

    // Where the text spells the kinds, from kind 1 on.
    pub fn kinds(&self) -> &[Spelling]
        ensures { result.now ≡ take self.now.counts.kinds self.now.kinds.now }
    {
        &self.kinds[..self.counts.kinds]
    }
}
