// Grammars that are accepted, each with all that their tables hold then.
use crate::lent::{AMPLE, Tables, counts, shown};
use draft::Draft;
use grammar::{Counts, Refusal, judge};
use lexer::Spelling;
use std::process::Abort;
use tables::Name;
use tree::{Class, Node};

// No child, or no sibling.
const NONE: u16 = 1024;

// Records in one line; macros, since a static calls no function.
macro_rules! name {
    ($place:expr, $length:expr, $root:expr) => {
        Name {
            place: $place,
            length: $length,
            root: $root,
        }
    };
}

macro_rules! kind {
    ($place:expr, $length:expr) => {
        Spelling {
            place: $place,
            length: $length,
        }
    };
}

macro_rules! node {
    ($class:ident, $value:expr, $first:expr, $next:expr) => {
        Node {
            class: Class::$class,
            value: $value,
            first: $first,
            next: $next,
        }
    };
}

// A grammar, and what the tables hold from place 0 on.
struct Accepted {
    text: &'static [u8],
    names: &'static [Name],
    kinds: &'static [Spelling],
    nodes: &'static [Node],
}

static ACCEPTED: [Accepted; 12] = [
    Accepted {
        text: b"s -> ;",
        names: &[name!(0, 1, 0)],
        kinds: &[],
        nodes: &[node!(Empty, 0, NONE, NONE)],
    },
    Accepted {
        text: b"s -> \"a\" ;",
        names: &[name!(0, 1, 0)],
        kinds: &[kind!(5, 3)],
        nodes: &[node!(Token, 1, NONE, NONE)],
    },
    Accepted {
        text: b"s -> ( \"a\" ) ;",
        names: &[name!(0, 1, 0)],
        kinds: &[kind!(7, 3)],
        nodes: &[node!(Token, 1, NONE, NONE)],
    },
    Accepted {
        text: b"s -> s ;",
        names: &[name!(0, 1, 0)],
        kinds: &[],
        nodes: &[node!(Name, 0, NONE, NONE)],
    },
    Accepted {
        text: b"s -> \"a\" | ;",
        names: &[name!(0, 1, 2)],
        kinds: &[kind!(5, 3)],
        nodes: &[
            node!(Token, 1, NONE, 1),
            node!(Empty, 0, NONE, NONE),
            node!(Alternative, 0, 0, NONE),
        ],
    },
    Accepted {
        text: b"s -> | \"a\" \"a\" | ;",
        names: &[name!(0, 1, 5)],
        kinds: &[kind!(7, 3)],
        nodes: &[
            node!(Empty, 0, NONE, 3),
            node!(Token, 1, NONE, 2),
            node!(Token, 1, NONE, NONE),
            node!(Chain, 0, 1, 4),
            node!(Empty, 0, NONE, NONE),
            node!(Alternative, 0, 0, NONE),
        ],
    },
    Accepted {
        text: b"s -> [ \"a\" ] { \"b\" \"a\" } ;",
        names: &[name!(0, 1, 6)],
        kinds: &[kind!(7, 3), kind!(15, 3)],
        nodes: &[
            node!(Token, 1, NONE, NONE),
            node!(Optional, 0, 0, 5),
            node!(Token, 2, NONE, 3),
            node!(Token, 1, NONE, NONE),
            node!(Chain, 0, 2, NONE),
            node!(Repetition, 0, 4, NONE),
            node!(Chain, 0, 1, NONE),
        ],
    },
    Accepted {
        text: b"s -> \"a\" ( \"b\" \"c\" ) ;",
        names: &[name!(0, 1, 4)],
        kinds: &[kind!(5, 3), kind!(11, 3), kind!(15, 3)],
        nodes: &[
            node!(Token, 1, NONE, 3),
            node!(Token, 2, NONE, 2),
            node!(Token, 3, NONE, NONE),
            node!(Chain, 0, 1, NONE),
            node!(Chain, 0, 0, NONE),
        ],
    },
    Accepted {
        text: b"s -> ( ( ) | [ { } ] ) ;",
        names: &[name!(0, 1, 4)],
        kinds: &[],
        nodes: &[
            node!(Empty, 0, NONE, 3),
            node!(Empty, 0, NONE, NONE),
            node!(Repetition, 0, 1, NONE),
            node!(Optional, 0, 2, NONE),
            node!(Alternative, 0, 0, NONE),
        ],
    },
    Accepted {
        text: b"a -> b b ; b -> \"a\" WORD \"a\" ;",
        names: &[name!(0, 1, 2), name!(5, 1, 6)],
        kinds: &[kind!(16, 3), kind!(20, 4)],
        nodes: &[
            node!(Name, 1, NONE, 1),
            node!(Name, 1, NONE, NONE),
            node!(Chain, 0, 0, NONE),
            node!(Token, 1, NONE, 4),
            node!(Token, 2, NONE, 5),
            node!(Token, 1, NONE, NONE),
            node!(Chain, 0, 3, NONE),
        ],
    },
    Accepted {
        text: b"s -> WORD \"WORD\" WORD | \"->\" \"-\" ;",
        names: &[name!(0, 1, 7)],
        kinds: &[kind!(5, 4), kind!(10, 6), kind!(24, 4), kind!(29, 3)],
        nodes: &[
            node!(Token, 1, NONE, 1),
            node!(Token, 2, NONE, 2),
            node!(Token, 1, NONE, NONE),
            node!(Chain, 0, 0, 6),
            node!(Token, 3, NONE, 5),
            node!(Token, 4, NONE, NONE),
            node!(Chain, 0, 4, NONE),
            node!(Alternative, 0, 3, NONE),
        ],
    },
    Accepted {
        text: b"#\n\ta_1->B|A;A->a_1;B->;#",
        names: &[name!(3, 3, 2), name!(8, 1, 4), name!(10, 1, 3)],
        kinds: &[],
        nodes: &[
            node!(Name, 1, NONE, 1),
            node!(Name, 2, NONE, NONE),
            node!(Alternative, 0, 0, NONE),
            node!(Name, 0, NONE, NONE),
            node!(Empty, 0, NONE, NONE),
        ],
    },
];

// The grammar of the examples.
static JOB: Accepted = Accepted {
    text: b"# A job copies folders, and may keep some of the older copies.\n\
        job -> \"job\" WORD { step } [ \"keep\" NUMBER ] ;\n\
        step -> \"copy\" STRING [ \"to\" STRING ] \";\" | \"skip\" STRING \";\" ;\n",
    names: &[name!(63, 3, 8), name!(83, 4, 21)],
    kinds: &[
        kind!(70, 5),
        kind!(76, 4),
        kind!(92, 6),
        kind!(99, 6),
        kind!(118, 6),
        kind!(125, 6),
        kind!(134, 4),
        kind!(148, 3),
        kind!(154, 6),
    ],
    nodes: &[
        node!(Token, 1, NONE, 1),
        node!(Token, 2, NONE, 3),
        node!(Name, 1, NONE, NONE),
        node!(Repetition, 0, 2, 7),
        node!(Token, 3, NONE, 5),
        node!(Token, 4, NONE, NONE),
        node!(Chain, 0, 4, NONE),
        node!(Optional, 0, 6, NONE),
        node!(Chain, 0, 0, NONE),
        node!(Token, 5, NONE, 10),
        node!(Token, 6, NONE, 14),
        node!(Token, 7, NONE, 12),
        node!(Token, 6, NONE, NONE),
        node!(Chain, 0, 11, NONE),
        node!(Optional, 0, 13, 15),
        node!(Token, 8, NONE, NONE),
        node!(Chain, 0, 9, 20),
        node!(Token, 9, NONE, 18),
        node!(Token, 6, NONE, 19),
        node!(Token, 8, NONE, NONE),
        node!(Chain, 0, 17, NONE),
        node!(Alternative, 0, 16, NONE),
    ],
};

impl Accepted {
    fn counts(&self) -> Counts {
        counts!(self.names.len(), self.kinds.len(), self.nodes.len())
    }

    fn is_accepted(&self, rt: &impl Abort) {
        let text = shown(self.text);
        let counts = self.counts();
        let mut tables = Tables::used();
        assert_eq!(rt; tables.judge(rt, self.text, AMPLE), Ok(counts), "{text}");
        assert_eq!(rt;
            tables.names.get(..counts.names),
            Some(self.names),
            "{text}"
        );
        assert_eq!(rt;
            tables.kinds.get(..counts.kinds),
            Some(self.kinds),
            "{text}"
        );
        assert_eq!(rt;
            tables.nodes.get(..counts.nodes),
            Some(self.nodes),
            "{text}"
        );
    }
}

#[test]
fn grammars(rt: HostRuntime) {
    for grammar in &ACCEPTED {
        grammar.is_accepted(&rt);
    }
    JOB.is_accepted(&rt);
}

#[test]
fn the_draft_of_the_job(rt: HostRuntime) -> Result<(), Refusal> {
    let mut tables = Tables::used();
    let counts = judge(
        JOB.text,
        &mut tables.names,
        &mut tables.kinds,
        &mut tables.nodes,
    )?;
    let draft = Draft::make(
        JOB.text,
        &tables.names,
        &tables.kinds,
        &tables.nodes,
        counts,
    );
    assert_eq!(rt; draft.shape(), JOB.counts());
    assert_eq!(rt; draft.nodes().len(), 22);
    assert_eq!(rt; draft.nodes(), JOB.nodes);
    Ok(())
}
