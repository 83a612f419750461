// Reads grammar.txt and job.txt in the working folder, and prints what was found.
#![tactic(auto)]

ghost use Rattle.std.specs.Prelude.{◌≡◌, ◌≤◌, length, take, option_map, IfOk, IfSome};

use lines::printout;
use std::io::{ErrorKind, Read, Write};
use std::rt::Files;
use std::{fs, io};
use tokens::LIMIT;

// One byte more than a text may have, so that a longer one is known for it.
const ROOM: usize = LIMIT + 1;

// Reads the front of what a reader gives, as much as the table has room for, and tells its length.
#[tactic(auto, using(crate::proofs::Filled::filled_on, crate::proofs::Filled::filled_still))]
fn front<R: Read + Drop>(mut reader: R, table: &mut [u8]) -> io::Result<usize>
    ensures fits { IfOk result (λ count. count ≤ length table.old) }
    ensures bytes { IfOk result (λ count. IfSome (option_map (take (length table.old)) (R.remaining reader)) (λ front. take count table.new ≡ front)) }
{
    let mut count = 0;
    // A read that is interrupted is tried again, and nothing says that interruptions end.
    for _ in 0..u64::MAX {
        if count >= table.len() {
            return Ok(count);
        }
        match reader.read(&mut table[count..]) {
            Ok(0) => return Ok(count),
            Ok(more) => count += more,
            Err(error) if error.kind() == ErrorKind::Interrupted => {}
            Err(error) => return Err(error),
        }
    }
    Err(ErrorKind::Interrupted.into())
}

// The length of the front of a file, which is read into the table. A file that is missing, or that
// cannot be read so far, is empty.
fn load(rt: &impl Files, path: &str, table: &mut [u8]) -> usize
    ensures { result ≤ length table.old }
{
    let Ok(file) = fs::open(rt, path) else {
        return 0;
    };
    front(file, table).unwrap_or(0)
}

fn main(rt: HostRuntime) -> io::Result<()> {
    let mut grammar = [0u8; ROOM];
    let mut job = [0u8; ROOM];
    let grammar_length = load(&rt, "grammar.txt", &mut grammar);
    let job_length = load(&rt, "job.txt", &mut job);
    let grammar = &grammar[..grammar_length];
    let job = &job[..job_length];
    let out = printout(rt.alloc(), grammar, job)?;
    rt.stdout().write_all(&out)
}
