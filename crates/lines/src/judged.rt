// The line that says how a grammar's text is judged.
ghost use Rattle.std.specs.Prelude.{◌≡◌, Some, IfOk};
ghost use Rattle.lines.specs.GrammarLines.{told_text, sizes_text, grammar_line};
ghost use Rattle.grammar.specs.Refusals.{numbered};

use crate::refused::Refused;
use grammar::{Counts, Refusal, judge};
use lexer::Spelling;
use std::alloc::{AllocError, Global};
use std::fmt;
use std::io::Write;
use tables::{KINDS, NAMES, NODES, Name};
use tree::Node;

// Why a grammar is refused, printed as the refusal, and its code if it has one.
#[derive(Drop)]
struct Told(Refusal);

impl fmt::Display for Told {
    ghost output = { λ t. Some (told_text (numbered t.0)) };

    fn fmt<W: fmt::Write>(&self, f: &mut fmt::Formatter<W>) -> fmt::Result {
        write!(f, "{}", Refused(self.0))?;
        if let Some(code) = self.0.code() {
            write!(f, " code {code}")?;
        }
        Ok(())
    }
}

// How much a grammar has.
#[derive(Drop)]
struct Sizes(Counts);

impl fmt::Display for Sizes {
    ghost output = { λ s. Some (sizes_text s.0.names s.0.nodes s.0.kinds) };

    fn fmt<W: fmt::Write>(&self, f: &mut fmt::Formatter<W>) -> fmt::Result {
        let Counts {
            names,
            nodes,
            kinds,
        } = self.0;
        write!(f, "grammar {names} rules {nodes} nodes {kinds} kinds")
    }
}

// A grammar's text, printed as how much it has, or why it is refused.
#[derive(Drop)]
struct Judged<'a>(&'a [u8]);

impl fmt::Display for Judged<'_> {
    ghost output = { λ t. Some (grammar_line t.0.now) };

    fn fmt<W: fmt::Write>(&self, f: &mut fmt::Formatter<W>) -> fmt::Result {
        let mut names = [Name::default(); NAMES];
        let mut kinds = [Spelling::default(); KINDS];
        let mut nodes = [Node::default(); NODES];
        match judge(self.0, &mut names, &mut kinds, &mut nodes) {
            Ok(counts) => write!(f, "{}", Sizes(counts)),
            Err(refusal) => write!(f, "{}", Told(refusal)),
        }
    }
}

// The line of a grammar's text.
pub fn judged_line(alloc: Global, grammar: &[u8]) -> Result<Vec<u8>, AllocError>
    ensures { IfOk result (λ out. out.items ≡ grammar_line grammar.now) }
{
    let mut out = Vec::new(alloc);
    // A vector refuses what is written to it only for want of memory.
    write!(out, "{}", Judged(grammar)).map_err(|_| AllocError)?;
    Ok(out)
}
