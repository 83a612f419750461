// The kinds of a grammar, by how its text spells them.
ghost use Rattle.std.specs.Prelude.{◌≡◌, ◌<◌, length as size, take, IfSome};
ghost use Rattle.std.specs.List.{position};
ghost use Rattle.std.specs.Option.{option_map};
ghost use Rattle.std.specs.Str.{bytes_eq};
ghost use Rattle.lexer.specs.Parts.{part_of};
ghost use Rattle.lexer.specs.Vocabulary.{quoted, written, reads, spelled, lexicon, kind_of, Names};

// How many kinds a grammar can have.
pub const KINDS: usize = 120;

// Where a grammar's text first spells a kind: a class word, or a spelling with its quotes. A rule
// of the project: the lent tables are of numbers, so that it is a place and a length, and no slice.
#[derive(Clone, Copy, Debug, Default, PartialEq, Eq)]
pub struct Spelling {
    pub place: usize,
    pub length: usize,
}

// What a kind is sought for: a class of tokens by its word, or a word or sign by its bytes,
// which a grammar writes in quotes.
#[derive(Clone, Copy, Debug)]
pub enum Sought<'a> {
    Class(&'a [u8]),
    Quoted(&'a [u8]),
}

// A grammar's text and where it spells its kinds: the entry at index i spells kind i + 1. Any
// values will do; an entry that reaches past the text spells nothing.
#[derive(Clone, Copy, Debug)]
pub struct Vocabulary<'t, 'k> {
    pub text: &'t [u8],
    pub kinds: &'k [Spelling],
}

// A part of the text, or none where it reaches past the end.
pub fn part(text: &[u8], place: usize, length: usize) -> Option<&[u8]>
    ensures { option_map (λ x. x.now) result ≡ part_of text.now place length }
{
    text.get(place..)?.get(..length)
}

// How long what is sought is in the grammar's text, its quotes counted.
fn written_length(sought: Sought<'_>) -> usize
    ensures { result ≡ size (written sought.entry) }
{
    match sought {
        Sought::Class(word) => word.len(),
        Sought::Quoted(inside) => inside.len() + 2,
    }
}

// A class goes by its word, and a spelling stands in quotes.
fn is_written(bytes: &[u8], sought: Sought<'_>) -> bool
    ensures { result ≡ bytes_eq bytes.now (written sought.entry) }
{
    match sought {
        Sought::Class(word) => bytes == word,
        Sought::Quoted(inside) => is_quoted(bytes, inside),
    }
}

fn is_quoted(bytes: &[u8], inside: &[u8]) -> bool
    ensures { result ≡ bytes_eq bytes.now (quoted inside.now) }
{
    match bytes {
        [b'"', inner @ .., b'"'] => inner == inside,
        _ => false,
    }
}

impl Vocabulary<'_, '_> {
    // Whether the entry spells what is sought. The length alone excludes most entries.
    fn is_spelled(&self, spelling: Spelling, sought: Sought<'_>) -> bool
        ensures { result ≡ reads (spelled self.now.text.now spelling) (written sought.entry) }
    {
        if spelling.length != written_length(sought) {
            return false;
        }
        // A match, as in `kind_of_word`.
        match part(self.text, spelling.place, spelling.length) {
            Some(bytes) => is_written(bytes, sought),
            None => false,
        }
    }

    // The index of the first entry that spells what is sought.
    fn index_of(&self, sought: Sought<'_>) -> Option<usize>
        ensures first { result ≡ position (λ e. reads (spelled self.now.text.now e) (written sought.entry)) (take 120 self.now.kinds.now) }
        ensures few { IfSome result (λ i. i < 120) }
    {
        let mut kinds = self.kinds.iter().take(KINDS);
        kinds.position(|spelling| self.is_spelled(*spelling, sought))
    }

    // The kind of the first entry that spells what is sought, or none.
    pub fn kind_of(&self, sought: Sought<'_>) -> Option<u8>
        ensures value { result ≡ kind_of (lexicon self.now) (written sought.entry) }
        ensures names { Names (lexicon self.now) (written sought.entry) result }
    {
        let index = self.index_of(sought)?;
        Some(index as u8 + 1)
    }
}
