// The list source: a table of stored kinds.
ghost use Rattle.std.specs.Prelude.{◌≡◌, ◌≤◌, length, drop};
ghost use Rattle.tokens.specs.Listed.{is_kind, listed_kinds};

use crate::source::{TokenSource, first};
use lexer::COMMENT;
use token::{Fault, FaultCode, Next, NothingLeft, Token};

// A table of kinds, read from a place on. A token's place is its index and its length is 1.
#[derive(Debug, Drop)]
pub struct ListSource<'a> {
    kinds: &'a [u8],
    place: usize,
    ghost within: { place ≤ length kinds.now },
}

impl<'a> ListSource<'a> {
    ghost use Rattle.tokens.specs.Meaning.{Lists};

    #[tactic(auto, using(crate::proofs::Listing::well_listed))]
    pub fn new(kinds: &'a [u8]) -> ListSource<'a>
        ensures { Lists kinds.now result }
    {
        ListSource { kinds, place: 0 }
    }
}

// Whether a number is a kind; comments have the last one.
fn fits(kind: u8) -> bool
    ensures { result ≡ is_kind kind }
{
    (1..=COMMENT).contains(&kind)
}

impl TokenSource for ListSource<'_> {
    ghost use Rattle.tokens.specs.Meaning.{list_tokens, list_ending};

    ghost tokens = { list_tokens };

    ghost ending = { list_ending };

    ghost input = { λ s. s.kinds.now };

    ghost kinds = { λ s. listed_kinds s.place (drop s.place s.kinds.now) };

    fn look(&self) -> Result<Next, Fault> {
        let place = self.place;
        let Some(&kind) = self.kinds.get(place) else {
            return Ok(Next::End(place));
        };
        if !fits(kind) {
            return Err(Fault {
                code: FaultCode::OutOfRange,
                place,
            });
        }
        Ok(Next::Token(Token {
            kind,
            place,
            length: 1,
        }))
    }

    #[tactic(auto, using(crate::proofs::Listing::steps_on))]
    fn take(&mut self) -> Result<Token, NothingLeft> {
        let token = first(self.look())?;
        self.place += 1;
        Ok(token)
    }
}
