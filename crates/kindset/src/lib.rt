// Sets of kinds: numbers below 128, one bit each.
#![tactic(auto)]

ghost use Rattle.std.specs.Prelude.{◌≡◌, ℕ, Bool, false, ◌&&◌, ◌||◌, ◌==◌, nat_lt};
ghost use Rattle.kindset.specs.Member.{member, LowestShared};

// The mark that stands for yielding no kind: a number, so that a set holds it beside the kinds.
pub const EMPTY: u8 = 127;

// A set of kinds. Its bit k says whether kind k is a member; no number above 127 ever is. All 128
// bits are one number, so that a union or a lookup is one operation.
#[derive(Clone, Copy, Debug, PartialEq, Eq)]
pub struct KindSet {
    bits: u128,
}

impl KindSet {
    // The set of no kind.
    pub fn empty() -> KindSet
        ensures { (k : ℕ) → member result k ≡ false }
    {
        KindSet { bits: 0 }
    }

    // The set with one kind more. A number above 127 adds nothing.
    pub fn with(self, kind: u8) -> KindSet
        ensures { (k : ℕ) → member result k ≡ (member self k || (nat_lt k 128 && k == kind)) }
    {
        if kind < 128 {
            KindSet {
                bits: self.bits | 1 << kind,
            }
        } else {
            self
        }
    }

    // Whether the kind is a member.
    pub fn has(self, kind: u8) -> bool
        ensures { result ≡ member self kind }
    {
        kind < 128 && (self.bits >> kind) % 2 == 1
    }

    // The members of either.
    pub fn union(self, other: KindSet) -> KindSet
        ensures { (k : ℕ) → member result k ≡ (member self k || member other k) }
    {
        KindSet {
            bits: self.bits | other.bits,
        }
    }

    // The members but for the empty mark, 127.
    pub fn without_empty(self) -> KindSet
        ensures { (k : ℕ) → member result k ≡ (member self k && nat_lt k 127) }
    {
        KindSet {
            bits: self.bits % (1 << EMPTY),
        }
    }

    // The lowest member of both, or none where there is none.
    pub fn lowest_shared(self, other: KindSet) -> Option<u8>
        ensures { LowestShared self other result }
    {
        let shared = self.bits & other.bits;
        if shared == 0 {
            return None;
        }
        Some(shared.trailing_zeros() as u8)
    }
}
