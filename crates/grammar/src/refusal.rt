// Why the text of a grammar is refused.
ghost use Rattle.std.specs.Prelude.{◌≡◌};
ghost use Rattle.grammar.specs.Refusals.{numbered as numbers, third, too_long as told_too_long, at_fault, nodes_full};

use tables::Full;
use token::{Fault, Numbered, TooLong};

// Refusals 1 to 10, in this order. Each has a place of the text as its value, but for the first
// and the eighth.
#[derive(Clone, Copy, Debug, PartialEq, Eq)]
pub enum Refusal {
    // The text is too long.
    TooLong(TooLong),
    // The text has a fault, with its code.
    Fault(Fault),
    // A token cannot stand where it does, or the text ends too early.
    Misplaced(usize),
    // The bracket is the 33rd that is open.
    TooDeep(usize),
    // A spelling in quotes is no word and no one or two signs.
    Misspelt(usize),
    // The name is one too many.
    NamesFull(usize),
    // The kind is one too many.
    KindsFull(usize),
    // A node is one too many; the value is how many there can be.
    NodesFull(usize),
    // The name has a rule already.
    SecondRule(usize),
    // The name has no rule; the place is where it stands first.
    NoRule(usize),
}

impl Numbered for Refusal {
    ghost numbered = { numbers };

    fn number(&self) -> u8 {
        match self {
            Refusal::TooLong(_) => 1,
            Refusal::Fault(_) => 2,
            Refusal::Misplaced(_) => 3,
            Refusal::TooDeep(_) => 4,
            Refusal::Misspelt(_) => 5,
            Refusal::NamesFull(_) => 6,
            Refusal::KindsFull(_) => 7,
            Refusal::NodesFull(_) => 8,
            Refusal::SecondRule(_) => 9,
            Refusal::NoRule(_) => 10,
        }
    }

    fn value(&self) -> usize {
        match self {
            Refusal::TooLong(too_long) => too_long.limit,
            Refusal::Fault(fault) => fault.place,
            Refusal::NodesFull(limit) => *limit,
            Refusal::Misplaced(place)
            | Refusal::TooDeep(place)
            | Refusal::Misspelt(place)
            | Refusal::NamesFull(place)
            | Refusal::KindsFull(place)
            | Refusal::SecondRule(place)
            | Refusal::NoRule(place) => *place,
        }
    }
}

impl Refusal {
    // The code of a fault.
    pub fn code(&self) -> Option<u8>
        ensures { result ≡ third (numbers self.now) }
    {
        match self {
            Refusal::Fault(fault) => Some(fault.code.number()),
            _ => None,
        }
    }
}

impl From<TooLong> for Refusal {
    ghost from_gives = { λ x r. r ≡ told_too_long x };

    fn from(too_long: TooLong) -> Refusal {
        Refusal::TooLong(too_long)
    }
}

impl From<Fault> for Refusal {
    ghost from_gives = { λ x r. r ≡ at_fault x };

    fn from(fault: Fault) -> Refusal {
        Refusal::Fault(fault)
    }
}

// Of a full table only that of the nodes is told by how many there can be.
impl From<Full> for Refusal {
    ghost from_gives = { λ x r. r ≡ nodes_full x };

    fn from(full: Full) -> Refusal {
        Refusal::NodesFull(full.limit)
    }
}
