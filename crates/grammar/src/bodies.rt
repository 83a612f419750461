// The bodies of rules: branches, sequences and items.
ghost use Rattle.std.specs.Prelude.{◌≡◌, ◌≤◌, length, take, MatchResult, ◌≢◌};
ghost use Rattle.notation.specs.Numbering.{no_level};
ghost use Rattle.notation.specs.Tokens.{bar};
ghost use Rattle.grammar.specs.declared.depth.Depth.{Depth};
ghost use Rattle.grammar.specs.Parts.{reader, roots};
ghost use Rattle.grammar.specs.Words.{WordTold};
ghost use Rattle.grammar.specs.declared.piece.Piece.TheVariants.{Bar};
ghost use Rattle.grammar.specs.Reader.{ItemTold, ItemRefused, Ends};
ghost use Rattle.grammar.specs.Bodies.{closing_piece, closing_token, level_at, MarkFirst, BranchRead, BranchRefused, FitsDepth, Closed, Unclosed, SequenceRead};

use crate::depth::Depth;
use crate::items::Item;
use crate::opened::Opened;
use crate::parser::Parser;
use crate::piece::{Bracket, Piece};
use crate::refusal::Refusal;
use crate::words::Word;

// The mark that ends branches: of a rule, or within a bracket.
fn closing_mark(closing: Option<Bracket>) -> Piece
    ensures { result ≡ closing_piece closing }
{
    closing.map_or(Piece::Semicolon, Piece::Closing)
}

impl Parser<'_, '_> {
    // At a bar: the sequence from an index on is ended, and waits as a branch. The index is required
    // to be within the stack, which no type of its own can say.
    fn next_branch(&mut self, begin: usize) -> Result<(), Refusal>
        requires { MarkFirst self.old.words.now bar × (begin ≤ length (roots self.old)) }
        ensures { MatchResult result (λ _. BranchRead begin (reader self.old) (reader self.new)) (BranchRefused begin (reader self.old) (reader self.new)) }
    {
        self.end_branch(begin)?;
        self.words.advance();
        Ok(())
    }

    // At the mark that ends branches.
    fn close(&mut self, opened: Opened) -> Result<u16, Refusal>
        requires { MarkFirst self.old.words.now (closing_token opened.closing) × (opened.begin ≤ length (roots self.old)) }
        ensures { (depth : Depth) → MatchResult result (Closed opened.closing depth (take opened.from (roots self.old)) (level_at opened (roots self.old)) (reader self.old) (reader self.new)) (Unclosed opened.closing depth (level_at opened (roots self.old)) (reader self.old) (reader self.new)) }
    {
        let node = self.finish(opened)?;
        self.words.advance();
        Ok(node)
    }

    // At a mark that ends a sequence and is no bar: it ends the branches, or cannot stand here.
    fn end(&mut self, opened: Opened, mark: Word) -> Result<u16, Refusal>
        requires { WordTold self.old.words.now mark × Ends mark.piece × (mark.piece ≢ Bar) × (opened.begin ≤ length (roots self.old)) }
        ensures { (depth : Depth) → MatchResult result (Closed opened.closing depth (take opened.from (roots self.old)) (level_at opened (roots self.old)) (reader self.old) (reader self.new)) (Unclosed opened.closing depth (level_at opened (roots self.old)) (reader self.old) (reader self.new)) }
    {
        if mark.piece != closing_mark(opened.closing) {
            return Err(Refusal::Misplaced(mark.place));
        }
        self.close(opened)
    }

    // One part of a sequence, or the mark that ends it, which stays.
    #[cycle(branches_item_sequence)]
    fn item(&mut self, depth: Depth) -> Result<Item, Refusal>
        ensures { MatchResult result (ItemTold depth (reader self.old) (reader self.new)) (ItemRefused depth (reader self.old) (reader self.new)) }
    {
        let word = self.words.word()?;
        match word.piece {
            Piece::Name => self.name_item(word),
            Piece::ClassWord => self.token_item(word),
            Piece::Spelling => self.spelling_item(word),
            Piece::Arrow => Err(Refusal::Misplaced(word.place)),
            Piece::Opening(bracket) => {
                let inside = depth.deeper().ok_or(Refusal::TooDeep(word.place))?;
                self.words.advance();
                let node = self.branches(Some(bracket), inside)?;
                Ok(Item::Node(node))
            }
            Piece::Bar | Piece::Semicolon | Piece::Closing(_) => Ok(Item::Mark(word)),
        }
    }

    // Items up to a mark that ends the sequence, which stays.
    #[cycle(branches_item_sequence)]
    fn sequence(&mut self, depth: Depth) -> Result<Word, Refusal>
        ensures { MatchResult result (SequenceRead depth (reader self.old) (reader self.new)) (ItemRefused depth (reader self.old) (reader self.new)) }
    {
        loop {
            match self.item(depth)? {
                Item::Node(node) => self.waiting.push(node),
                Item::Mark(mark) => return Ok(mark),
            }
        }
    }

    // Branches, and the mark that ends them.
    #[cycle(branches_item_sequence)]
    pub(crate) fn branches(
        &mut self,
        closing: Option<Bracket>,
        depth: Depth,
    ) -> Result<u16, Refusal>
        requires { FitsDepth closing depth }
        ensures { MatchResult result (Closed closing depth (roots self.old) no_level (reader self.old) (reader self.new)) (Unclosed closing depth no_level (reader self.old) (reader self.new)) }
    {
        let from = self.waiting.len();
        loop {
            let begin = self.waiting.len();
            let mark = self.sequence(depth)?;
            if mark.piece != Piece::Bar {
                let opened = Opened {
                    closing,
                    from,
                    begin,
                };
                return self.end(opened, mark);
            }
            self.next_branch(begin)?;
        }
    }
}
