// The roots of names, at any limit of their table.
ghost use Rattle.std.specs.Prelude.{◌≡◌};
ghost use Rattle.tables.specs.Filling.{entries, RestKept};
ghost use Rattle.tables.specs.Names.{rooted, ruled, lowest_unruled};

use crate::filling::Filling;
use crate::name::Name;
use tree::NONE;

impl<const LIMIT: usize> Filling<'_, Name, LIMIT> {
    // The rule of a name that is known has this root.
    pub fn set_root(&mut self, name: usize, root: u16)
        ensures list { entries self.new ≡ rooted name root (entries self.old) }
        ensures kept { RestKept self.old self.new }
        ensures loan { self.new.table.ghost_name ≡ self.old.table.ghost_name }
    {
        if name < self.count {
            self.table[name].root = root;
        }
    }

    // Whether a name is known and has a rule.
    pub fn has_rule(&self, name: usize) -> bool
        ensures { result ≡ ruled name (entries self.now) }
    {
        // By index: where a closure tests what `get` finds, the check does not find the proof
        // (docs/DECISIONS.md, "Forms that the prover does not cover").
        name < self.count && self.table[name].root != NONE
    }

    // The first place of the lowest name that has no rule.
    pub fn unruled(&self) -> Option<usize>
        ensures { result ≡ lowest_unruled (entries self.now) }
    {
        let mut known = self.entries().iter();
        let name = known.find(|name| name.root == NONE)?;
        Some(name.place)
    }
}
