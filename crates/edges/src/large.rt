// Texts of the largest size, and texts that are too large.
use crate::lent::{AMPLE, counts, has_fault, is_told};
use grammar::Counts;
use std::alloc::{AllocError, Global};

// What a text begins with, the two parts that it repeats, and what it ends with.
type Parts = [&'static str; 4];

// Each part so many times, the one before the other.
fn grown(alloc: Global, parts: Parts, times: usize) -> Result<String, AllocError> {
    let [head, left, right, tail] = parts;
    let left = left.repeat(alloc, times)?;
    let right = right.repeat(alloc, times)?;
    [head, left.as_str(), right.as_str(), tail].concat(alloc)
}

// The two parts around each number from 000 on.
fn numbered(alloc: Global, parts: Parts, count: usize) -> Result<String, AllocError> {
    let [head, left, right, tail] = parts;
    let mut text = String::from_str(alloc, head)?;
    for i in 0..count {
        write!(text, "{left}{i:03}{right}")?;
    }
    text.push_str(tail)?;
    Ok(text)
}

// The largest texts of their form that are accepted, and what they count.
struct Large(Parts, usize, Counts);

static LARGE: [Large; 11] = [
    Large(["s->;", " ", "", ""], 32764, counts!(1, 0, 1)),
    Large(["#", "x", "", "\ns->;"], 32762, counts!(1, 0, 1)),
    Large(["", "a", "", "->;"], 255, counts!(1, 0, 1)),
    Large(["s->\"", "a", "", "\";"], 253, counts!(1, 1, 1)),
    Large(["s->", "(", ")", ";"], 32, counts!(1, 0, 1)),
    Large(["s->", "[", "]", ";"], 32, counts!(1, 0, 33)),
    Large(["s->", "{", "}", ";"], 32, counts!(1, 0, 33)),
    Large(["s->", "()", "", ";"], 1023, counts!(1, 0, 1024)),
    Large(["s->", " WORD", "", ";"], 1023, counts!(1, 1, 1024)),
    Large(["s->", " s", "", ";"], 1023, counts!(1, 0, 1024)),
    Large(["s->", "|", "", ";"], 1022, counts!(1, 0, 1024)),
];

#[test]
fn large_texts(rt: HostRuntime) -> Result<(), AllocError> {
    for &Large(parts, times, counts) in &LARGE {
        let text = grown(rt.alloc(), parts, times)?;
        is_told(&rt, text.as_bytes(), AMPLE, Ok(counts));
    }
    Ok(())
}

// Texts that are too large: the number, and the first value.
struct TooLarge(Parts, usize, u8, usize);

static TOO_LARGE: [TooLarge; 20] = [
    TooLarge(["s->;", " ", "", ""], 32765, 1, 32768),
    TooLarge(["#", "x", "", "\ns->;"], 32763, 1, 32768),
    TooLarge(["", "'", "", ""], 32769, 1, 32768),
    TooLarge(["", "'", "", ""], 32768, 2, 0),
    TooLarge(["", " ", "", ""], 32768, 3, 32768),
    TooLarge(["", "a", "", "->;"], 256, 2, 0),
    TooLarge(["s->\"", "a", "", "\";"], 254, 2, 3),
    TooLarge(["s->", "(", ")", ";"], 33, 4, 35),
    TooLarge(["s->", "[", "]", ";"], 33, 4, 35),
    TooLarge(["s->", "{", "}", ";"], 33, 4, 35),
    TooLarge(["s->", "([{", "", ""], 11, 4, 35),
    TooLarge(["s->", "(", "", "]"], 32, 3, 35),
    TooLarge(["s->", "()", "", ";"], 1024, 8, 1024),
    TooLarge(["s->", " WORD", "", ";"], 1024, 8, 1024),
    TooLarge(["s->", " WORD", "", ")"], 1024, 3, 5123),
    TooLarge(["s->", " WORD", "", ")"], 1025, 8, 1024),
    TooLarge(["s->", " s", "", ";"], 1024, 8, 1024),
    TooLarge(["s->", "|", "", ";"], 1023, 8, 1024),
    TooLarge(["s->", "|", "", ")"], 1024, 3, 1027),
    TooLarge(["s->", "|", "", ")"], 1025, 8, 1024),
];

#[test]
fn too_large_texts(rt: HostRuntime) -> Result<(), AllocError> {
    for &TooLarge(parts, times, number, value) in &TOO_LARGE {
        let text = grown(rt.alloc(), parts, times)?;
        is_told(&rt, text.as_bytes(), AMPLE, Err((number, value)));
    }
    Ok(())
}

#[test]
fn a_long_name(rt: HostRuntime) -> Result<(), AllocError> {
    let text = grown(rt.alloc(), ["", "a", "", "->;"], 256)?;
    has_fault(&rt, text.as_bytes(), 3);
    Ok(())
}

// As many names and kinds as there can be.
static MANY: [Large; 4] = [
    Large(["", "n", "->;", ""], 64, counts!(64, 0, 64)),
    Large(["", "n", "->;", "x->n000 x;"], 63, counts!(64, 0, 66)),
    Large(["s->", "\"k", "\"", ";"], 120, counts!(1, 120, 121)),
    Large(["s->", "\"k", "\"", "\"k000\";"], 120, counts!(1, 120, 122)),
];

#[test]
fn many_entries(rt: HostRuntime) -> Result<(), AllocError> {
    for &Large(parts, count, counts) in &MANY {
        let text = numbered(rt.alloc(), parts, count)?;
        is_told(&rt, text.as_bytes(), AMPLE, Ok(counts));
    }
    Ok(())
}

static TOO_MANY: [TooLarge; 5] = [
    TooLarge(["", "n", "->;", ""], 65, 6, 448),
    TooLarge(["", "n", "->;", "x"], 64, 6, 448),
    TooLarge(["", "n", "->;", "x->n000 y;"], 63, 6, 449),
    TooLarge(["s->", "\"k", "\"", ";"], 121, 7, 723),
    TooLarge(["s->", "\"k", "\"", "WORD"], 120, 7, 723),
];

#[test]
fn too_many_entries(rt: HostRuntime) -> Result<(), AllocError> {
    for &TooLarge(parts, count, number, value) in &TOO_MANY {
        let text = numbered(rt.alloc(), parts, count)?;
        is_told(&rt, text.as_bytes(), AMPLE, Err((number, value)));
    }
    Ok(())
}
