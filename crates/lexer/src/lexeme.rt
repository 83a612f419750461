// One token from the front of a text.
ghost use Rattle.std.specs.Prelude.{◌≡◌};
ghost use Rattle.lexer.specs.Lexeme.{judged, word_kind, string_length, string_lexeme, pair_kind, one_sign, sign_lexeme, front};
ghost use Rattle.lexer.specs.Vocabulary.{lexicon};

use crate::bytes::{ByteClass, Run, class_of, is_sign, run_length};
use crate::vocabulary::{Sought, Vocabulary};
use token::FaultCode;

// The kinds that no grammar gives: numbers above those that one can give.
pub const BLANK: u8 = 121;

pub const COMMENT: u8 = 122;

// How long a token may be, but for blanks and comments.
const LONGEST: usize = 255;

// What stands at the front of a text: its kind, by number as in a token, and its length.
#[derive(Clone, Copy, Debug, PartialEq, Eq)]
pub struct Lexeme {
    pub kind: u8,
    pub length: usize,
}

// A token of that length, given the kind that the grammar has for it.
fn judge(length: usize, kind: Option<u8>) -> Result<Lexeme, FaultCode>
    ensures { result ≡ judged length kind }
{
    if length > LONGEST {
        return Err(FaultCode::Oversized);
    }
    let kind = kind.ok_or(FaultCode::NoKind)?;
    Ok(Lexeme { kind, length })
}

// A word has the kind of its spelling, else of the class of words.
fn kind_of_word(word: &[u8], vocabulary: &Vocabulary<'_, '_>) -> Option<u8>
    ensures { result ≡ word_kind (lexicon vocabulary.now) word.now }
{
    // A match, since what a closure over references answers is not known to its caller.
    match vocabulary.kind_of(Sought::Quoted(word)) {
        Some(kind) => Some(kind),
        None => vocabulary.kind_of(Sought::Class(b"WORD")),
    }
}

// How long a string is, both quotes counted, by what follows its first quote.
fn length_of_string(inside: &[u8]) -> Option<usize>
    ensures { result ≡ string_length inside.now }
{
    let n = run_length(inside, Run::Quoted);
    let end = *inside.get(n)?;
    (end == b'"').then_some(n + 2)
}

fn lex_string(inside: &[u8], vocabulary: &Vocabulary<'_, '_>) -> Result<Lexeme, FaultCode>
    ensures { result ≡ string_lexeme (lexicon vocabulary.now) (string_length inside.now) }
{
    let length = length_of_string(inside).ok_or(FaultCode::Unclosed)?;
    judge(length, vocabulary.kind_of(Sought::Class(b"STRING")))
}

// The kind of two sign bytes, if the grammar spells the pair.
fn kind_of_pair(first: u8, second: u8, vocabulary: &Vocabulary<'_, '_>) -> Option<u8>
    ensures { result ≡ pair_kind (lexicon vocabulary.now) first second }
{
    if !is_sign(second) {
        return None;
    }
    vocabulary.kind_of(Sought::Quoted(&[first, second]))
}

fn lex_one_sign(first: u8, vocabulary: &Vocabulary<'_, '_>) -> Result<Lexeme, FaultCode>
    ensures { result ≡ one_sign (lexicon vocabulary.now) first }
{
    judge(1, vocabulary.kind_of(Sought::Quoted(&[first])))
}

// Two sign bytes if the grammar spells the pair, else one.
fn lex_sign(rest: &[u8], vocabulary: &Vocabulary<'_, '_>) -> Result<Lexeme, FaultCode>
    ensures { result ≡ sign_lexeme (lexicon vocabulary.now) rest.now }
{
    match rest {
        [first, second, ..] => match kind_of_pair(*first, *second, vocabulary) {
            Some(kind) => Ok(Lexeme { kind, length: 2 }),
            None => lex_one_sign(*first, vocabulary),
        },
        [first, ..] => lex_one_sign(*first, vocabulary),
        [] => Err(FaultCode::BeginsNothing),
    }
}

// The token at the front of a text that has a byte left.
pub fn lex(rest: &[u8], vocabulary: &Vocabulary<'_, '_>) -> Result<Lexeme, FaultCode>
    ensures { result ≡ front (lexicon vocabulary.now) rest.now }
{
    let [first, after @ ..] = rest else {
        return Err(FaultCode::BeginsNothing);
    };
    match class_of(*first) {
        ByteClass::Blank => Ok(Lexeme {
            kind: BLANK,
            length: run_length(rest, Run::Blanks),
        }),
        ByteClass::Comment => Ok(Lexeme {
            kind: COMMENT,
            length: run_length(rest, Run::Comment),
        }),
        ByteClass::Word => {
            let length = run_length(rest, Run::Word);
            judge(length, kind_of_word(&rest[..length], vocabulary))
        }
        ByteClass::Number => {
            let length = run_length(rest, Run::Digits);
            judge(length, vocabulary.kind_of(Sought::Class(b"NUMBER")))
        }
        ByteClass::Quote => lex_string(after, vocabulary),
        ByteClass::Sign => lex_sign(rest, vocabulary),
        ByteClass::Nothing => Err(FaultCode::BeginsNothing),
    }
}
