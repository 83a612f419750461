// Refusals, told by their number and their values.
ghost use Rattle.std.specs.Prelude.{◌≡◌, List, ℕ, slice_index};
ghost use Rattle.token.specs.Refusals.{too_long, nothing_left};

// A refusal: its number and then its values in order are its whole meaning. A rule of the
// project: whatever type a refusal has, its number and values are what a customer is told.
pub trait Numbered {
    ghost numbered: { Self → List ℕ };

    // Its number, from 1 to 26.
    fn number(&self) -> u8
        ensures { result ≡ slice_index (numbered self.now) 0 };

    // The first of its values.
    fn value(&self) -> usize
        ensures { result ≡ slice_index (numbered self.now) 1 };
}

// A text is too long: refusal 1, with how many bytes are allowed.
#[derive(Clone, Copy, Debug, PartialEq, Eq)]
pub struct TooLong {
    pub limit: usize,
}

// Nothing is left to take: refusal 25, with the ending's place.
#[derive(Clone, Copy, Debug, PartialEq, Eq)]
pub struct NothingLeft {
    pub place: usize,
}

impl Numbered for TooLong {
    ghost numbered = { too_long };

    fn number(&self) -> u8 {
        1
    }

    fn value(&self) -> usize {
        self.limit
    }
}

impl Numbered for NothingLeft {
    ghost numbered = { nothing_left };

    fn number(&self) -> u8 {
        25
    }

    fn value(&self) -> usize {
        self.place
    }
}
