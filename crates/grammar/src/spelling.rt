// Quoted spellings.
ghost use Rattle.std.specs.Prelude.{◌≡◌};
ghost use Rattle.notation.specs.Tokens.{is_word, is_signs, is_spelling};

use lexer::{Run, is_sign, run_length};

// A letter, and letters, digits and underscores after it.
fn is_word(bytes: &[u8]) -> bool
    ensures { result ≡ is_word bytes.now }
{
    let [first, rest @ ..] = bytes else {
        return false;
    };
    first.is_ascii_alphabetic() && run_length(rest, Run::Word) == rest.len()
}

// One or two sign bytes.
fn is_sign_spelling(bytes: &[u8]) -> bool
    ensures { result ≡ is_signs bytes.now }
{
    match bytes {
        [only] => is_sign(*only),
        [first, second] => is_sign(*first) && is_sign(*second),
        _ => false,
    }
}

// Whether a string may stand for a kind: between its quotes it has a word, or one or two sign bytes.
#[tactic(auto, using(crate::proofs::Spelled::inside_is))]
pub fn may_be_spelled(string: &[u8]) -> bool
    ensures { result ≡ is_spelling string.now }
{
    let [_, inside @ .., _] = string else {
        return false;
    };
    is_word(inside) || is_sign_spelling(inside)
}
