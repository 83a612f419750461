// The names of a grammar.

// A name: where the text has it first, its length, and the root of its rule. A rule of the project:
// the lent tables are of numbers, and 1,024 stands for none in them.
#[derive(Clone, Copy, Debug, Default, PartialEq, Eq)]
pub struct Name {
    pub place: usize,
    pub length: usize,
    pub root: u16,
}
