// The text source: a text cut into tokens, one ahead.
ghost use Rattle.std.specs.Prelude.{◌≡◌, ◌≤◌, length, drop, MatchResult};
ghost use Rattle.tokens.specs.Held.{with_held, held_ending, NextFits, next_fits_prop};
ghost use Rattle.token.specs.Refusals.{IsTooLong};
ghost use Rattle.scanning.specs.Scan.{scan_from};
ghost use Rattle.lexer.specs.Vocabulary.{lexicon};

use crate::source::{TokenSource, WithText, first};
use lexer::{Vocabulary, lex, part};
use token::{Fault, Next, NothingLeft, Token, TooLong};

// How long a text may be.
pub const LIMIT: usize = 32768;

// Whether a text is short enough to be read.
pub fn check_length(text: &[u8]) -> Result<(), TooLong>
    ensures { MatchResult result (λ _. length text.now ≤ 32768) (IsTooLong text.now) }
{
    if text.len() > LIMIT {
        return Err(TooLong { limit: LIMIT });
    }
    Ok(())
}

// What comes next in a text, and the place from which on it is not lexed yet.
#[derive(Clone, Copy, Debug)]
struct Ahead {
    next: Result<Next, Fault>,
    place: usize,
}

// A text and the vocabulary by which it is read. It holds its first token, or else the ending.
#[derive(Debug, Drop)]
pub struct TextSource<'s, 't, 'k> {
    text: &'s [u8],
    vocabulary: Vocabulary<'t, 'k>,
    ahead: Ahead,
    ghost fits: { NextFits ahead.next } by { next_fits_prop ahead.next },
}

// Lexes one token at a place.
fn lex_at(text: &[u8], place: usize, vocabulary: &Vocabulary<'_, '_>) -> Ahead
    ensures fits { NextFits result.next }
    ensures tokens { with_held result.next (scan_from (lexicon vocabulary.now) (drop result.place text.now) result.place).tokens ≡ (scan_from (lexicon vocabulary.now) (drop place text.now) place).tokens }
    ensures ending { held_ending result.next (scan_from (lexicon vocabulary.now) (drop result.place text.now) result.place).ending ≡ (scan_from (lexicon vocabulary.now) (drop place text.now) place).ending }
{
    if place >= text.len() {
        return Ahead {
            next: Ok(Next::End(place)),
            place,
        };
    }
    match lex(&text[place..], vocabulary) {
        Ok(lexeme) => Ahead {
            next: Ok(Next::Token(Token {
                kind: lexeme.kind,
                place,
                length: lexeme.length,
            })),
            place: place + lexeme.length,
        },
        Err(code) => Ahead {
            next: Err(Fault { code, place }),
            place,
        },
    }
}

impl<'s, 't, 'k> TextSource<'s, 't, 'k> {
    ghost use Rattle.tokens.specs.Meaning.{Scans};

    // The source of a text, refused exactly where the text is too long.
    pub fn new(
        text: &'s [u8],
        vocabulary: Vocabulary<'t, 'k>,
    ) -> Result<TextSource<'s, 't, 'k>, TooLong>
        ensures { MatchResult result (Scans (lexicon vocabulary.entry) text.now) (IsTooLong text.now) }
    {
        check_length(text)?;
        let ahead = lex_at(text, 0, &vocabulary);
        Ok(TextSource {
            text,
            vocabulary,
            ahead,
        })
    }
}

impl TokenSource for TextSource<'_, '_, '_> {
    ghost use Rattle.tokens.specs.Meaning.{text_tokens, text_ending, text_kinds};

    ghost tokens = { text_tokens };

    ghost ending = { text_ending };

    ghost input = { λ s. s.text.now };

    ghost kinds = { text_kinds };

    fn look(&self) -> Result<Next, Fault> {
        self.ahead.next
    }

    fn take(&mut self) -> Result<Token, NothingLeft> {
        let token = first(self.ahead.next)?;
        self.ahead = lex_at(self.text, self.ahead.place, &self.vocabulary);
        Ok(token)
    }
}

impl WithText for TextSource<'_, '_, '_> {
    fn bytes(&self, token: Token) -> Option<&[u8]> {
        part(self.text, token.place, token.length)
    }
}
