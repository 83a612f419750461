// Entries that are numbered at their first appearance.
ghost use Rattle.std.specs.Prelude.{◌≡◌, MatchResult};
ghost use Rattle.std.specs.List.{position};
ghost use Rattle.std.specs.Str.{bytes_eq};
ghost use Rattle.tables.specs.Filling.{entries};
ghost use Rattle.tables.specs.Numbering.{is_written, Numbered, Refused};
ghost use Rattle.tables.specs.Spots.{cut};

use crate::filling::Filling;
use crate::full::Full;
use crate::spotted::{Spotted, clip};

// Whether the text has the entry's bytes so.
fn reads_so<E: Spotted>(text: &[u8], entry: &E, word: &[u8]) -> bool
    ensures { result ≡ bytes_eq (cut text.now (E.Spotted.begins entry.now) (E.Spotted.spans entry.now)) word.now }
{
    clip(text, entry.place(), entry.length()) == word
}

impl<E: Spotted + Copy, const LIMIT: usize> Filling<'_, E, LIMIT> {
    // The index of the first entry that is written as this one.
    fn index_of(&self, text: &[u8], entry: &E) -> Option<usize>
        ensures { result ≡ position (is_written E.Spotted.begins E.Spotted.spans text.now entry.now) (entries self.now) }
    {
        let word = clip(text, entry.place(), entry.length());
        let mut known = self.entries().iter();
        known.position(|other| reads_so(text, other, word))
    }

    // The index of the entry that is written as this one; it is added where there is none, and
    // refused where the table is full.
    pub fn number(&mut self, text: &[u8], entry: E) -> Result<usize, Full>
        ensures told { MatchResult result (Numbered E.Spotted.begins E.Spotted.spans text.now entry self.old self.new) (Refused E.Spotted.begins E.Spotted.spans text.now entry self.old self.new) }
        ensures loan { self.new.table.ghost_name ≡ self.old.table.ghost_name }
    {
        match self.index_of(text, &entry) {
            Some(index) => Ok(index),
            None => self.push(entry),
        }
    }
}
