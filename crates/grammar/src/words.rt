// The tokens of a grammar's text, one by one.
ghost use Rattle.std.specs.Prelude.{◌≡◌, MatchResult};
ghost use Rattle.grammar.specs.Words.{name_entry, kind_entry, AheadTold, WordTold, Stuck, Halted, Advanced};

use crate::piece::{Piece, piece_of};
use crate::refusal::Refusal;
use lexer::Spelling;
use tables::{Name, clip};
use token::{Fault, Next};
use tokens::{Skipping, TextSource, TokenSource};
use tree::NONE;

// A token: what it is in the notation, and where the text has it.
#[derive(Clone, Copy, Debug)]
pub(crate) struct Word {
    pub piece: Piece,
    pub place: usize,
    pub length: usize,
}

// What comes next: a token, or the end at a place. A type of its own beside `Next`: generic, that
// would ask for a type where only its end is named.
#[derive(Clone, Copy, Debug)]
pub(crate) enum Ahead {
    Word(Word),
    End(usize),
}

// The entry of a name that is first met here, with no rule yet.
impl From<Word> for Name {
    ghost from_gives = { λ x r. r ≡ name_entry x };

    fn from(word: Word) -> Name {
        Name {
            place: word.place,
            length: word.length,
            root: NONE,
        }
    }
}

// The entry of a kind that is first met here.
impl From<Word> for Spelling {
    ghost from_gives = { λ x r. r ≡ kind_entry x };

    fn from(word: Word) -> Spelling {
        Spelling {
            place: word.place,
            length: word.length,
        }
    }
}

// The source of a text, and the text.
#[derive(Drop)]
pub(crate) struct Words<'a> {
    pub source: Skipping<TextSource<'a, 'static, 'static>>,
    pub text: &'a [u8],
}

impl Words<'_> {
    // The first token, or else the end.
    pub(crate) fn ahead(&self) -> Result<Ahead, Fault>
        ensures { MatchResult result (AheadTold self.now) (λ f. Stuck self.now f) }
    {
        match self.source.look()? {
            Next::Token(token) => {
                // What piece it is stands in the text, so that no `From` of a token makes its word.
                let piece = piece_of(clip(self.text, token.place, token.length));
                Ok(Ahead::Word(Word {
                    piece,
                    place: token.place,
                    length: token.length,
                }))
            }
            Next::End(place) => Ok(Ahead::End(place)),
        }
    }

    // The first token, where the text may not end.
    pub(crate) fn word(&self) -> Result<Word, Refusal>
        ensures { MatchResult result (WordTold self.now) (Halted self.now) }
    {
        match self.ahead()? {
            Ahead::Word(word) => Ok(word),
            Ahead::End(place) => Err(Refusal::Misplaced(place)),
        }
    }

    // Goes past the first token.
    pub(crate) fn advance(&mut self)
        ensures { Advanced self.old self.new }
    {
        let _ = self.source.take();
    }
}
