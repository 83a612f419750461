// A survey of a source: its tokens counted by kind, and its ending.
ghost use Rattle.std.specs.Prelude.{◌≡◌, ◌≤◌, length, MatchResult};
ghost use Rattle.lines.specs.Lines.{survey_of_tokens, Surveyed};
ghost use Rattle.token.specs.Refusals.{IsTooLong};

use grammar::vocabulary;
use tokens::{Ending, Next, TokenSource, TooLong, layered};

// The kinds of words and of strings: numbers, by their places in the vocabulary.
const WORD: u8 = 1;

const STRING: u8 = 2;

// How many tokens a source has, how many of them are words and strings, and how it ends.
#[derive(Clone, Copy, Debug, PartialEq, Eq)]
pub(crate) struct Survey {
    pub tokens: usize,
    pub words: usize,
    pub strings: usize,
    pub ending: Ending,
}

// Goes through a source to its ending.
fn survey_of<S: TokenSource>(source: &mut S) -> Survey
    requires { length (S.TokenSource.tokens source.old) ≤ 32768 }
    ensures { result ≡ survey_of_tokens (S.TokenSource.tokens source.old) (S.TokenSource.ending source.old) }
{
    let mut tokens = 0;
    let mut words = 0;
    let mut strings = 0;
    let ending = loop {
        match source.look() {
            Ok(Next::Token(token)) => {
                let _ = source.take();
                tokens += 1;
                words += usize::from(token.kind == WORD);
                strings += usize::from(token.kind == STRING);
            }
            Ok(Next::End(place)) => break Ending::End(place),
            Err(fault) => break Ending::Fault(fault),
        }
    };
    Survey {
        tokens,
        words,
        strings,
        ending,
    }
}

// The survey of a grammar's text, refused exactly where the text is too long.
pub(crate) fn survey_text(text: &[u8]) -> Result<Survey, TooLong>
    ensures { MatchResult result (Surveyed text.now) (IsTooLong text.now) }
{
    let mut source = layered(text, vocabulary())?;
    Ok(survey_of(&mut source))
}
