// What a source of tokens hands out: tokens, the end, faults and refusals.
#![tactic(auto)]

mod refusal;
mod token;

pub use refusal::{NothingLeft, Numbered, TooLong};
pub use token::{Ending, Fault, FaultCode, Next, Token};
