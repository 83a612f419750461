// The classes of bytes, and runs of them.
ghost use Rattle.std.specs.Prelude.{◌≡◌};
ghost use Rattle.std.specs.List.{prefix_len};
ghost use Rattle.lexer.specs.Bytes.{blank, sign, class, goes_on};

// What a byte begins.
#[derive(Clone, Copy, Debug, PartialEq, Eq)]
pub enum ByteClass {
    Blank,
    Comment,
    Word,
    Number,
    Quote,
    Sign,
    Nothing,
}

// The bytes that go on with what has begun.
#[derive(Clone, Copy, Debug, PartialEq, Eq)]
pub enum Run {
    Blanks,
    Comment,
    Word,
    Digits,
    Quoted,
}

fn is_blank(b: u8) -> bool
    ensures { result ≡ blank b }
{
    matches!(b, b' ' | b'\t' | b'\r' | b'\n')
}

pub fn is_sign(b: u8) -> bool
    ensures { result ≡ sign b }
{
    b.is_ascii_punctuation() && !matches!(b, b'"' | b'#' | b'\'' | b'\\' | b'_' | b'`')
}

pub(crate) fn class_of(b: u8) -> ByteClass
    ensures { result ≡ class b }
{
    if is_blank(b) {
        ByteClass::Blank
    } else if b == b'#' {
        ByteClass::Comment
    } else if b.is_ascii_alphabetic() {
        ByteClass::Word
    } else if b.is_ascii_digit() {
        ByteClass::Number
    } else if b == b'"' {
        ByteClass::Quote
    } else if is_sign(b) {
        ByteClass::Sign
    } else {
        ByteClass::Nothing
    }
}

// By an enum and not by closures, so that one definition names the bytes of each run.
fn continues(run: Run, b: u8) -> bool
    ensures { result ≡ goes_on run b }
{
    match run {
        Run::Blanks => is_blank(b),
        Run::Comment => b != b'\n',
        Run::Word => b.is_ascii_alphanumeric() || b == b'_',
        Run::Digits => b.is_ascii_digit(),
        Run::Quoted => !matches!(b, b'"' | b'\n'),
    }
}

// How many bytes at the front go on with `run`.
pub fn run_length(rest: &[u8], run: Run) -> usize
    ensures { result ≡ prefix_len (goes_on run) rest.now }
{
    rest.iter().take_while(|b| continues(run, **b)).count()
}
