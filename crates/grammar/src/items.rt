// The items of sequences.
ghost use Rattle.std.specs.Prelude.{MatchResult};
ghost use Rattle.grammar.specs.declared.depth.Depth.{Depth};
ghost use Rattle.grammar.specs.Parts.{reader};
ghost use Rattle.grammar.specs.Leaf.{LeafRead, LeafRefused};
ghost use Rattle.grammar.specs.Named.{NameNumbered, NameOver};
ghost use Rattle.grammar.specs.Reader.{NamedFirst, TerminalFirst, SpellingFirst, ItemTold, ItemRefused};

use crate::parser::Parser;
use crate::refusal::Refusal;
use crate::spelling::may_be_spelled;
use crate::words::Word;
use lexer::Spelling;
use tables::{Name, clip};
use tree::{Class, NONE};

// What an item was read as: its node, or none, at a mark that ends the sequence. Named by what
// was read; `ControlFlow` would only say what the caller does then.
#[derive(Clone, Copy, Debug)]
pub(crate) enum Item {
    Node(u16),
    Mark(Word),
}

impl Parser<'_, '_> {
    // A node without children for the token that stands first, which is taken.
    fn leaf(&mut self, class: Class, value: u16) -> Result<Item, Refusal>
        ensures { MatchResult result (LeafRead class value (reader self.old) (reader self.new)) (LeafRefused (reader self.old) (reader self.new)) }
    {
        let node = self.nodes.make(class, value, NONE)?;
        self.words.advance();
        Ok(Item::Node(node))
    }

    // The number of the name that a word is.
    pub(crate) fn name_number(&mut self, word: Word) -> Result<usize, Refusal>
        ensures { MatchResult result (NameNumbered word (reader self.old) (reader self.new)) (NameOver word (reader self.old) (reader self.new)) }
    {
        self.names
            .number(self.words.text, Name::from(word))
            .map_err(|_| Refusal::NamesFull(word.place))
    }

    // A name in a sequence. One text for this and the next would take the table, the entry, the class
    // and the refusal as parameters.
    pub(crate) fn name_item(&mut self, word: Word) -> Result<Item, Refusal>
        requires { NamedFirst self.old.words.now word }
        ensures { (depth : Depth) → MatchResult result (ItemTold depth (reader self.old) (reader self.new)) (ItemRefused depth (reader self.old) (reader self.new)) }
    {
        let name = self.name_number(word)?;
        self.leaf(Class::Name, name as u16)
    }

    // A class word or a quoted spelling in a sequence; kinds are numbered from 1. What stands first is
    // required, as in `head`.
    pub(crate) fn token_item(&mut self, word: Word) -> Result<Item, Refusal>
        requires { TerminalFirst self.old.words.now word }
        ensures { (depth : Depth) → MatchResult result (ItemTold depth (reader self.old) (reader self.new)) (ItemRefused depth (reader self.old) (reader self.new)) }
    {
        let kind = self
            .kinds
            .number(self.words.text, Spelling::from(word))
            .map_err(|_| Refusal::KindsFull(word.place))?;
        self.leaf(Class::Token, kind as u16 + 1)
    }

    // A quoted spelling in a sequence.
    pub(crate) fn spelling_item(&mut self, word: Word) -> Result<Item, Refusal>
        requires { SpellingFirst self.old.words.now word }
        ensures { (depth : Depth) → MatchResult result (ItemTold depth (reader self.old) (reader self.new)) (ItemRefused depth (reader self.old) (reader self.new)) }
    {
        if !may_be_spelled(clip(self.words.text, word.place, word.length)) {
            return Err(Refusal::Misspelt(word.place));
        }
        self.token_item(word)
    }
}
