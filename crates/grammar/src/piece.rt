// What a token is in the notation.
ghost use Rattle.grammar.specs.Pieces.{Pieced};

// The three pairs of brackets.
#[derive(Clone, Copy, Debug, PartialEq, Eq)]
pub enum Bracket {
    Round,
    Square,
    Curly,
}

// A token of the notation: a word is a class word or a name, and a string a quoted spelling.
#[derive(Clone, Copy, Debug, PartialEq, Eq)]
pub enum Piece {
    Name,
    ClassWord,
    Spelling,
    Arrow,
    Bar,
    Semicolon,
    Opening(Bracket),
    Closing(Bracket),
}

// The piece that is written so.
#[tactic(auto, using(std::proofs::lemmas::Slice::Eq::text_from_reads))]
pub fn piece_of(bytes: &[u8]) -> Piece
    ensures { Pieced bytes.now result }
{
    match bytes {
        b"WORD" | b"NUMBER" | b"STRING" => Piece::ClassWord,
        b"->" => Piece::Arrow,
        b"|" => Piece::Bar,
        b";" => Piece::Semicolon,
        b"(" => Piece::Opening(Bracket::Round),
        b"[" => Piece::Opening(Bracket::Square),
        b"{" => Piece::Opening(Bracket::Curly),
        b")" => Piece::Closing(Bracket::Round),
        b"]" => Piece::Closing(Bracket::Square),
        b"}" => Piece::Closing(Bracket::Curly),
        [b'"', ..] => Piece::Spelling,
        _ => Piece::Name,
    }
}
