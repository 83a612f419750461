// The product's one layering of sources: a text without its blanks and comments.
ghost use Rattle.std.specs.Prelude.{◌≡◌, ℕ, ◌||◌, MatchResult, ◌==◌};
ghost use Rattle.kindset.specs.Member.{member};
ghost use Rattle.tokens.specs.Layered.{Layered};
ghost use Rattle.token.specs.Refusals.{IsTooLong};
ghost use Rattle.lexer.specs.Vocabulary.{lexicon};

use crate::skipping::Skipping;
use crate::text::TextSource;
use kindset::KindSet;
use lexer::{BLANK, COMMENT, Vocabulary};
use token::TooLong;

// The kinds of blanks and comments.
fn passed_over() -> KindSet
    ensures { (k : ℕ) → member result k ≡ (k == 121 || k == 122) }
{
    KindSet::empty().with(BLANK).with(COMMENT)
}

// The source of a text without its blanks and comments, refused exactly where the text is too
// long. Grammars and jobs are read through it.
pub fn layered<'s, 't, 'k>(
    text: &'s [u8],
    vocabulary: Vocabulary<'t, 'k>,
) -> Result<Skipping<TextSource<'s, 't, 'k>>, TooLong>
    ensures { MatchResult result (Layered (lexicon vocabulary.entry) text.now) (IsTooLong text.now) }
{
    let source = TextSource::new(text, vocabulary)?;
    Ok(Skipping::new(source, passed_over()))
}
