// A grammar's vocabulary, and the token at the front of a text.
#![tactic(auto)]

mod bytes;
mod lexeme;
mod vocabulary;

pub use bytes::{ByteClass, Run, is_sign, run_length};
pub use lexeme::{BLANK, COMMENT, Lexeme, lex};
pub use vocabulary::{KINDS, Sought, Spelling, Vocabulary, part};
