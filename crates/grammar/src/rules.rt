// Rules, up to the end of the text.
ghost use Rattle.std.specs.Prelude.{◌≡◌, ℕ, MatchResult};
ghost use Rattle.grammar.specs.Parts.{reader, SameLoans};
ghost use Rattle.grammar.specs.Words.{WordTold};
ghost use Rattle.grammar.specs.Rules.{HeadRead, HeadRefused, ArrowRead, ArrowRefused, RuleRead, AllRead, NamesRuled, NamesLack};
ghost use Rattle.tables.specs.Filling.{entries};

use crate::depth::Depth;
use crate::parser::Parser;
use crate::piece::Piece;
use crate::refusal::Refusal;
use crate::words::{Ahead, Word};

impl Parser<'_, '_> {
    // The name of a rule, which has none yet. That the word stands first relates it to the parser, so
    // that no type of one of them can say it; to look again would be a second look for a token.
    fn head(&mut self, word: Word) -> Result<usize, Refusal>
        requires { WordTold self.old.words.now word }
        ensures { MatchResult result (HeadRead (reader self.old) (reader self.new)) (HeadRefused (reader self.old) (reader self.new)) }
    {
        if word.piece != Piece::Name {
            return Err(Refusal::Misplaced(word.place));
        }
        let name = self.name_number(word)?;
        if self.names.has_rule(name) {
            return Err(Refusal::SecondRule(word.place));
        }
        self.words.advance();
        Ok(name)
    }

    fn arrow(&mut self) -> Result<(), Refusal>
        ensures { MatchResult result (λ _. ArrowRead (reader self.old) (reader self.new)) (ArrowRefused (reader self.old) (reader self.new)) }
    {
        let word = self.words.word()?;
        if word.piece != Piece::Arrow {
            return Err(Refusal::Misplaced(word.place));
        }
        self.words.advance();
        Ok(())
    }

    fn rule(&mut self, word: Word) -> Result<(), Refusal>
        requires { WordTold self.old.words.now word }
        ensures { MatchResult result (λ _. RuleRead (reader self.old) (reader self.new)) (HeadRefused (reader self.old) (reader self.new)) }
    {
        let name = self.head(word)?;
        self.arrow()?;
        let root = self.branches(None, Depth::none())?;
        self.names.set_root(name, root);
        Ok(())
    }

    // The end of the text: there has to be a rule, and one for each name.
    fn end_of_text(&self, place: usize) -> Result<(), Refusal>
        ensures { MatchResult result (λ _. NamesRuled (entries self.now.names.now)) (NamesLack place (entries self.now.names.now)) }
    {
        if self.names.len() == 0 {
            return Err(Refusal::Misplaced(place));
        }
        match self.names.unruled() {
            Some(first) => Err(Refusal::NoRule(first)),
            None => Ok(()),
        }
    }

    // All rules.
    pub(crate) fn rules(&mut self) -> Result<(), Refusal>
        ensures told { MatchResult result (λ _. AllRead (reader self.old) (reader self.new)) (HeadRefused (reader self.old) (reader self.new)) }
        ensures loans { SameLoans self.old self.new }
    {
        loop {
            match self.words.ahead()? {
                Ahead::Word(word) => self.rule(word)?,
                Ahead::End(place) => return self.end_of_text(place),
            }
        }
    }
}
