// How deep brackets may nest.
ghost use Rattle.std.specs.Prelude.{◌≡◌, ◌+◌, ◌≤◌, MatchOption};

// How many brackets may be open.
const DEPTH: u8 = 32;

// How many brackets are open.
#[derive(Clone, Copy, Debug)]
pub(crate) struct Depth {
    brackets: u8,
    ghost few: { brackets ≤ 32 },
}

impl Depth {
    pub(crate) fn none() -> Depth
        ensures { result.brackets ≡ 0 }
    {
        Depth { brackets: 0 }
    }

    // One bracket more, where it may be.
    pub(crate) fn deeper(self) -> Option<Depth>
        ensures { MatchOption result (self.brackets ≡ 32) (λ d. d.brackets ≡ self.brackets + 1) }
    {
        // No `then`: in its closure the test is not known.
        if self.brackets == DEPTH {
            return None;
        }
        Some(Depth {
            brackets: self.brackets + 1,
        })
    }
}
