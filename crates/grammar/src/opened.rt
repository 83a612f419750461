// Branches that are being read.
ghost use Rattle.std.specs.Prelude.{◌≤◌};

use crate::piece::Bracket;

// What mark ends the branches, and where on the stack their roots begin and those of the branch
// at hand.
#[derive(Clone, Copy, Debug)]
pub(crate) struct Opened {
    pub closing: Option<Bracket>,
    pub from: usize,
    pub begin: usize,
    ghost ordered: { from ≤ begin },
}
