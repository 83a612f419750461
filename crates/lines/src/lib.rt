// What jobread prints, as bytes.
#![tactic(auto)]

mod judged;
mod printed;
mod refused;
mod survey;

pub use judged::judged_line;
pub use printed::printout;
