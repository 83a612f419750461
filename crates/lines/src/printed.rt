// All that jobread prints of a grammar's text and a job's.
ghost use Rattle.std.specs.Prelude.{◌≡◌, Some, IfOk};
ghost use Rattle.lines.specs.Lines.{text_of_survey, grammar_text, job_text, printed};

use crate::refused::Refused;
use crate::survey::{Survey, survey_text};
use std::alloc::{AllocError, Global};
use std::fmt;
use std::io::Write;
use tokens::{Ending, check_length};

impl fmt::Display for Survey {
    ghost output = { λ s. Some (text_of_survey s) };

    fn fmt<W: fmt::Write>(&self, f: &mut fmt::Formatter<W>) -> fmt::Result {
        let Survey {
            tokens,
            words,
            strings,
            ending,
        } = *self;
        let marks = tokens.saturating_sub(words).saturating_sub(strings);
        write!(
            f,
            "{tokens} tokens {words} words {strings} strings {marks} marks "
        )?;
        match ending {
            Ending::End(place) => write!(f, "end at {place}"),
            Ending::Fault(fault) => write!(f, "fault {} at {}", fault.code.number(), fault.place),
        }
    }
}

// A grammar's text, printed as its tokens by kind and its ending, or as too long.
#[derive(Drop)]
struct GrammarText<'a>(&'a [u8]);

impl fmt::Display for GrammarText<'_> {
    ghost output = { λ t. Some (grammar_text t.0.now) };

    fn fmt<W: fmt::Write>(&self, f: &mut fmt::Formatter<W>) -> fmt::Result {
        match survey_text(self.0) {
            Ok(survey) => write!(f, "{survey}"),
            Err(too_long) => write!(f, "{}", Refused(too_long)),
        }
    }
}

// A job's text, printed as how long it is, or as too long.
#[derive(Drop)]
struct JobText<'a>(&'a [u8]);

impl fmt::Display for JobText<'_> {
    ghost output = { λ t. Some (job_text t.0.now) };

    fn fmt<W: fmt::Write>(&self, f: &mut fmt::Formatter<W>) -> fmt::Result {
        match check_length(self.0) {
            Ok(()) => write!(f, "{} bytes", self.0.len()),
            Err(too_long) => write!(f, "{}", Refused(too_long)),
        }
    }
}

// The program's output, given the two files.
pub fn printout(alloc: Global, grammar: &[u8], job: &[u8]) -> Result<Vec<u8>, AllocError>
    ensures { IfOk result (λ out. out.items ≡ printed grammar.now job.now) }
{
    let mut out = Vec::new(alloc);
    // A vector refuses what is written to it only for want of memory.
    write!(
        out,
        "grammar {}\njob {}\n",
        GrammarText(grammar),
        JobText(job)
    )
    .map_err(|_| AllocError)?;
    Ok(out)
}
