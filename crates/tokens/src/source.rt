// What every source of tokens promises.
ghost use Rattle.std.specs.Prelude.{◌≡◌, ℕ, List, Ok, MatchResult};
ghost use Rattle.std.specs.Option.{option_map};
ghost use Rattle.std.specs.List.{AllByRecursion};
ghost use Rattle.scanning.specs.Scan.{KindFits};
ghost use Rattle.tokens.specs.Sources.{looked, taken, told, left, SameIfNone, EndsAt};
ghost use Rattle.lexer.specs.Parts.{part_of};
ghost use Rattle.token.specs.declared.token.Token.{Token as TokenOf};
ghost use Rattle.token.specs.declared.token.Ending.{Ending as EndingOf};
ghost use Rattle.token.specs.declared.token.Next.TheVariants as next_is;

use token::{Fault, Next, NothingLeft, Token};

// A finite list of tokens to come, and an ending.
pub trait TokenSource {
    ghost tokens: { Self → List TokenOf };

    ghost ending: { Self → EndingOf };

    // The text or table that it stands over, which no call changes.
    ghost input: { Self → List ℕ };

    // Each kind is one of 1 to 122.
    ghost kinds: { (s : Self) → AllByRecursion KindFits (tokens s) };

    // The first token, or else the ending. Changes nothing.
    fn look(&self) -> Result<Next, Fault>
        ensures { result ≡ looked (tokens self.now) (ending self.now) };

    // Removes and answers the first token; refused, with nothing changed, exactly where none is left.
    fn take(&mut self) -> Result<Token, NothingLeft>
        ensures value { told result ≡ taken (tokens self.old) (ending self.old) }
        ensures rest { tokens self.new ≡ left (tokens self.old) }
        ensures end { ending self.new ≡ ending self.old }
        ensures stays { input self.new ≡ input self.old }
        ensures same { SameIfNone (tokens self.old) self.new self.old };
}

// A source that also hands out the bytes of a token.
pub trait WithText: TokenSource {
    // A part of the text, or none where the token reaches past it.
    fn bytes(&self, token: Token) -> Option<&[u8]>
        ensures { option_map (λ x. x.now) result ≡ part_of (Self.TokenSource.input self.now) token.place token.length };
}

// What a take answers where this comes next.
pub(crate) fn first(next: Result<Next, Fault>) -> Result<Token, NothingLeft>
    ensures { MatchResult result (λ t. next ≡ Ok (next_is.Token t)) (EndsAt next) }
{
    match next {
        Ok(Next::Token(token)) => Ok(token),
        Ok(Next::End(place)) => Err(NothingLeft { place }),
        Err(fault) => Err(NothingLeft { place: fault.place }),
    }
}
