// The tables that are lent to judging, and what it says of a text.
use grammar::{Counts, Refusal, judge};
use lexer::Spelling;
use std::process::Abort;
use std::slice::EscapeAscii;
use tables::{KINDS, NAMES, NODES, Name, clip};
use token::Numbered;
use tree::{Class, Node};

// Counts in one line; a macro, since a static calls no function.
macro_rules! counts {
    ($names:expr, $kinds:expr, $nodes:expr) => {
        Counts {
            names: $names,
            kinds: $kinds,
            nodes: $nodes,
        }
    };
}

pub(crate) use counts;

// One place more in each table than a grammar can use.
pub(crate) const AMPLE: Counts = counts!(NAMES + 1, KINDS + 1, NODES + 1);

// The tables of a grammar.
#[derive(Drop)]
pub(crate) struct Tables {
    pub(crate) names: [Name; NAMES + 1],
    pub(crate) kinds: [Spelling; KINDS + 1],
    pub(crate) nodes: [Node; NODES + 1],
}

// The front of a text, for the message of a test that fails.
pub(crate) fn shown(text: &[u8]) -> EscapeAscii<'_> {
    clip(text, 0, 80).escape_ascii()
}

// So many of a table's places, or all of them.
fn front<T>(table: &mut [T], room: usize) -> &mut [T] {
    let count = room.min(table.len());
    &mut table[..count]
}

// Every place from an index on is 0.
fn is_wiped<T: PartialEq + Copy + Default>(table: &[T], from: usize) -> bool {
    table.iter().skip(from).all(|place| *place == T::default())
}

impl Tables {
    // Tables with something in every place.
    pub(crate) fn used() -> Tables {
        let name = Name {
            place: 9,
            length: 8,
            root: 7,
        };
        let kind = Spelling {
            place: 9,
            length: 8,
        };
        let node = Node {
            class: Class::Repetition,
            value: 9,
            first: 8,
            next: 7,
        };
        Tables {
            names: [name; NAMES + 1],
            kinds: [kind; KINDS + 1],
            nodes: [node; NODES + 1],
        }
    }

    // Judges a text in that much of the tables. Each place past the entries has to be 0 then, and
    // a text that is refused has none.
    pub(crate) fn judge(
        &mut self,
        rt: &impl Abort,
        text: &[u8],
        room: Counts,
    ) -> Result<Counts, Refusal> {
        let names = front(&mut self.names, room.names);
        let kinds = front(&mut self.kinds, room.kinds);
        let nodes = front(&mut self.nodes, room.nodes);
        let answer = judge(text, names, kinds, nodes);
        let entries = answer.unwrap_or_default();
        assert!(rt; is_wiped(names, entries.names), "names of {}", shown(text));
        assert!(rt; is_wiped(kinds, entries.kinds), "kinds of {}", shown(text));
        assert!(rt; is_wiped(nodes, entries.nodes), "nodes of {}", shown(text));
        answer
    }
}

// How many entries a text has, or the number and the first value of its refusal.
type Told = Result<Counts, (u8, usize)>;

// This is said of the text, in tables of that room.
pub(crate) fn is_told(rt: &impl Abort, text: &[u8], room: Counts, told: Told) {
    let answer = Tables::used().judge(rt, text, room);
    let answer = answer.map_err(|refusal| (refusal.number(), refusal.value()));
    assert_eq!(rt; answer, told, "{}", shown(text));
}

// The text is refused for a fault with this code.
pub(crate) fn has_fault(rt: &impl Abort, text: &[u8], code: u8) {
    let refusal = Tables::used().judge(rt, text, AMPLE).err();
    let told = refusal.and_then(|refusal| refusal.code());
    assert_eq!(rt; told, Some(code), "{}", shown(text));
}
