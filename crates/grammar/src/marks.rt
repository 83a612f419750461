// The words and marks of the notation.
ghost use Rattle.std.specs.Prelude.{◌≡◌, map, Some};
ghost use Rattle.grammar.specs.Notation.{notation_kinds};
ghost use Rattle.lexer.specs.Vocabulary.{lexicon};

use tokens::{Spelling, Vocabulary};

// A record in one line; a macro, since a static calls no function.
macro_rules! spelling {
    ($place:expr, $length:expr) => {
        Spelling {
            place: $place,
            length: $length,
        }
    };
}

// Where the notation's own text spells its kinds.
static SPELLINGS: [Spelling; 11] = [
    spelling!(0, 4),
    spelling!(5, 6),
    spelling!(12, 4),
    spelling!(17, 3),
    spelling!(21, 3),
    spelling!(25, 3),
    spelling!(29, 3),
    spelling!(33, 3),
    spelling!(37, 3),
    spelling!(41, 3),
    spelling!(45, 3),
];

// The notation's own vocabulary: words are kind 1, strings kind 2, and the marks kinds 3 to 11.
pub fn vocabulary() -> Vocabulary<'static, 'static>
    ensures { lexicon result ≡ map Some notation_kinds }
{
    Vocabulary {
        text: b"WORD STRING \"->\" \";\" \"|\" \"(\" \")\" \"[\" \"]\" \"{\" \"}\"",
        kinds: &SPELLINGS,
    }
}
