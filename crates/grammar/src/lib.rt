// Grammars: the notation in which they are printed.
#![tactic(auto)]

mod bodies;
mod depth;
mod forest;
mod items;
mod judging;
mod marks;
mod opened;
mod parser;
mod piece;
mod refusal;
mod rules;
mod spelling;
mod words;

pub use judging::{Counts, ZERO_NAME, ZERO_NODE, ZERO_SPELLING, judge};
pub use marks::vocabulary;
pub use piece::{Bracket, Piece, piece_of};
pub use refusal::Refusal;
pub use spelling::may_be_spelled;
