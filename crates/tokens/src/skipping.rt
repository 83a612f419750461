// The skipping layer: any source without some kinds.
ghost use Rattle.std.specs.Prelude.{◌≡◌};
ghost use Rattle.tokens.specs.Held.{with_held, held_ending, NextFits, next_fits_prop};
ghost use Rattle.tokens.specs.Layer.{without, layer_kinds};

use crate::source::{TokenSource, WithText, first};
use kindset::KindSet;
use token::{Fault, Next, NothingLeft, Token};

// A source whose list is that of the inner source without the skipped kinds, with the same
// ending. It holds its first token, or else the ending; the inner source has what follows.
#[derive(Debug, Drop)]
pub struct Skipping<S> {
    source: S,
    skipped: KindSet,
    held: Result<Next, Fault>,
    ghost fits: { NextFits held } by { next_fits_prop held },
}

// Takes tokens up to the first that is kept, which is answered, or else the ending.
fn next_kept<S: TokenSource>(source: &mut S, skipped: KindSet) -> Result<Next, Fault>
    ensures tokens { with_held result (without skipped (S.TokenSource.tokens source.new)) ≡ without skipped (S.TokenSource.tokens source.old) }
    ensures ending { held_ending result (S.TokenSource.ending source.new) ≡ S.TokenSource.ending source.old }
    ensures input { S.TokenSource.input source.new ≡ S.TokenSource.input source.old }
    ensures fits { NextFits result }
{
    loop {
        let next = source.look();
        let Ok(Next::Token(token)) = next else {
            return next;
        };
        let _ = source.take();
        if !skipped.has(token.kind) {
            return next;
        }
    }
}

impl<S: TokenSource> Skipping<S> {
    // The layer over a source: whatever the source and the set, its list is the source's without
    // those kinds, and its ending and input are the source's.
    pub fn new(mut source: S, skipped: KindSet) -> Skipping<S>
        ensures tokens { with_held result.held (without result.skipped (S.TokenSource.tokens result.source)) ≡ without skipped (S.TokenSource.tokens source) }
        ensures ending { held_ending result.held (S.TokenSource.ending result.source) ≡ S.TokenSource.ending source }
        ensures input { S.TokenSource.input result.source ≡ S.TokenSource.input source }
    {
        let held = next_kept(&mut source, skipped);
        Skipping {
            source,
            skipped,
            held,
        }
    }
}

impl<S: TokenSource> TokenSource for Skipping<S> {
    ghost tokens = { λ s. with_held s.held (without s.skipped (S.TokenSource.tokens s.source)) };

    ghost ending = { λ s. held_ending s.held (S.TokenSource.ending s.source) };

    ghost input = { λ s. S.TokenSource.input s.source };

    ghost kinds = { λ s. layer_kinds (record { next = s.held; fits = s.fits }) s.skipped (S.TokenSource.tokens s.source) (S.TokenSource.kinds s.source) };

    fn look(&self) -> Result<Next, Fault> {
        self.held
    }

    fn take(&mut self) -> Result<Token, NothingLeft> {
        let token = first(self.held)?;
        self.held = next_kept(&mut self.source, self.skipped);
        Ok(token)
    }
}

impl<S: WithText> WithText for Skipping<S> {
    fn bytes(&self, token: Token) -> Option<&[u8]> {
        self.source.bytes(token)
    }
}
