// Token sources: what the readers above read from.
#![tactic(auto)]

mod layering;
mod list;
mod skipping;
mod source;
#[cfg(test)]
mod tests;
mod text;

pub use layering::layered;
pub use lexer::{Sought, Spelling, Vocabulary};
pub use list::ListSource;
pub use skipping::Skipping;
pub use source::{TokenSource, WithText};
pub use text::{LIMIT, TextSource, check_length};
pub use token::{Ending, Fault, FaultCode, Next, NothingLeft, Numbered, Token, TooLong};
