// What a table is filled with. Each call ensures that the loan stays, so that the lender knows its
// table afterwards.
ghost use Rattle.std.specs.Prelude.{◌≡◌, length, MatchResult};
ghost use Rattle.tables.specs.Filling.{entries, room, IsNew, IsResumed, Added, IsFull};

use crate::filling::Filling;
use crate::full::Full;
use crate::wipe::wipe_table;

impl<'a, E: Copy, const LIMIT: usize> Filling<'a, E, LIMIT> {
    // A table without entries: every place is wiped.
    pub fn new(table: &'a mut [E], zero: E) -> Self
        ensures empty { IsNew table.old zero result }
        ensures loan { result.table.ghost_name ≡ table.entry.ghost_name }
    {
        wipe_table(table, zero);
        Filling { table, count: 0 }
    }
}

impl<'a, E, const LIMIT: usize> Filling<'a, E, LIMIT> {
    // A table that goes on from where it was left: its first places are entries, `count` of them or
    // as many as there can be.
    pub fn resumed(table: &'a mut [E], count: usize) -> Self
        ensures part { IsResumed table.old count result }
        ensures loan { result.table.ghost_name ≡ table.entry.ghost_name }
    {
        let count = count.min(LIMIT).min(table.len());
        Filling { table, count }
    }

    // The whole table, with the places that are not used.
    pub fn table(&self) -> &[E]
        ensures { result.now ≡ self.now.table.now }
    {
        self.table
    }
}

impl<E: Copy, const LIMIT: usize> Filling<'_, E, LIMIT> {
    // How many entries there are.
    pub fn len(&self) -> usize
        ensures { result ≡ length (entries self.now) }
    {
        self.entries().len()
    }

    // The entries, from place 0 on.
    pub fn entries(&self) -> &[E]
        ensures { result.now ≡ entries self.now }
    {
        &self.table[..self.count]
    }

    // How many entries there can be.
    pub fn limit(&self) -> usize
        ensures { result ≡ room self.now }
    {
        LIMIT.min(self.table.len())
    }

    // One more entry, and its index; refused where the table is full.
    pub fn push(&mut self, entry: E) -> Result<usize, Full>
        ensures told { MatchResult result (Added entry self.old self.new) (IsFull self.old self.new) }
        ensures loan { self.new.table.ghost_name ≡ self.old.table.ghost_name }
    {
        let index = self.count;
        let limit = self.limit();
        if index >= limit {
            return Err(Full { limit });
        }
        self.table[index] = entry;
        self.count += 1;
        Ok(index)
    }
}
