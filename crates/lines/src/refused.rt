// How a refusal is printed.
ghost use Rattle.std.specs.Prelude.{Some};
ghost use Rattle.lines.specs.Lines.{refused_text};

use std::fmt;
use tokens::Numbered;

// A refusal, printed as its number and its first value as the place.
#[derive(Drop)]
pub(crate) struct Refused<R>(pub R);

impl<R: Numbered> fmt::Display for Refused<R> {
    ghost output = { λ r. Some (refused_text (R.Numbered.numbered r.0)) };

    fn fmt<W: fmt::Write>(&self, f: &mut fmt::Formatter<W>) -> fmt::Result {
        write!(f, "refused {} at {}", self.0.number(), self.0.value())
    }
}
