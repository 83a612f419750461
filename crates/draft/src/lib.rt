// Drafts: grammars as they were read, before they are judged any further.
#![tactic(auto)]

mod calls;
mod draft;

pub use draft::Draft;
