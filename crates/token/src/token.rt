// What a source hands out: tokens, the end of its input, and faults.
ghost use Rattle.std.specs.Prelude.{◌≡◌};
ghost use Rattle.token.specs.Faults.{fault_number};

// A token: its kind from 1 to 122, and where its bytes stand. Kinds are no enum: a grammar gives
// their numbers, and stored tokens are read as numbers.
#[derive(Clone, Copy, Debug, PartialEq, Eq)]
pub struct Token {
    pub kind: u8,
    pub place: usize,
    pub length: usize,
}

// What is wrong with the input, numbered 1 to 5 in this order.
#[derive(Clone, Copy, Debug, PartialEq, Eq)]
pub enum FaultCode {
    // The byte begins no token.
    BeginsNothing = 1,
    // The string is not closed on its line.
    Unclosed,
    // The token has more than 255 bytes.
    Oversized,
    // The grammar has no kind for the token.
    NoKind,
    // The stored number is no kind.
    OutOfRange,
}

impl FaultCode {
    // The number by which a fault is told.
    pub fn number(self) -> u8
        ensures { result ≡ fault_number self }
    {
        self as u8
    }
}

// A fault of the input, at the place where its token begins.
#[derive(Clone, Copy, Debug, PartialEq, Eq)]
pub struct Fault {
    pub code: FaultCode,
    pub place: usize,
}

// What comes next in a source that has no fault there: a token, or the end at a place.
#[derive(Clone, Copy, Debug, PartialEq, Eq)]
pub enum Next {
    Token(Token),
    End(usize),
}

// What a source comes to after its last token. A value to compare, with which no call fails, so
// that it is no `Result`.
#[derive(Clone, Copy, Debug, PartialEq, Eq)]
pub enum Ending {
    End(usize),
    Fault(Fault),
}
