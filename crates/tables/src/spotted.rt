// Records that say where the text has something first.
ghost use Rattle.std.specs.Prelude.{◌≡◌, ℕ};
ghost use Rattle.tables.specs.Spots.{cut};

use crate::name::Name;
use lexer::Spelling;

// A part of the text, by place and length.
pub trait Spotted {
    ghost begins: { Self → ℕ };

    ghost spans: { Self → ℕ };

    fn place(&self) -> usize
        ensures { result ≡ begins self.now };

    fn length(&self) -> usize
        ensures { result ≡ spans self.now };
}

// Both impls are written out: each of their lines is a field of the record.
impl Spotted for Name {
    ghost begins = { λ n. n.place };

    ghost spans = { λ n. n.length };

    fn place(&self) -> usize {
        self.place
    }

    fn length(&self) -> usize {
        self.length
    }
}

impl Spotted for Spelling {
    ghost begins = { λ s. s.place };

    ghost spans = { λ s. s.length };

    fn place(&self) -> usize {
        self.place
    }

    fn length(&self) -> usize {
        self.length
    }
}

// A part of the text, as far as the text goes. It takes two numbers, since the records
// of the lent tables have place and length as fields, by a rule of the project.
pub fn clip(text: &[u8], place: usize, length: usize) -> &[u8]
    ensures { result.now ≡ cut text.now place length }
{
    let rest = &text[place.min(text.len())..];
    &rest[..length.min(rest.len())]
}
