use crate::layering::layered;
use crate::list::ListSource;
use crate::skipping::Skipping;
use crate::source::{TokenSource, WithText};
use crate::text::TextSource;
use kindset::KindSet;
use lexer::{Spelling, Vocabulary};
use std::process::Abort;
use std::test::Fail;
use token::{Ending, Fault, FaultCode, Next, NothingLeft, Token, TooLong};

// Kinds 1 to 9, and two entries that reach past the text.
static SPELLINGS: [Spelling; 11] = [
    Spelling {
        place: 0,
        length: 6,
    },
    Spelling {
        place: 7,
        length: 4,
    },
    Spelling {
        place: 12,
        length: 6,
    },
    Spelling {
        place: 19,
        length: 6,
    },
    Spelling {
        place: 26,
        length: 3,
    },
    Spelling {
        place: 30,
        length: 4,
    },
    Spelling {
        place: 35,
        length: 3,
    },
    Spelling {
        place: 39,
        length: 3,
    },
    Spelling {
        place: 43,
        length: 4,
    },
    Spelling {
        place: 45,
        length: 3,
    },
    Spelling {
        place: 18446744073709551615,
        length: 3,
    },
];

fn vocabulary() -> Vocabulary<'static, 'static> {
    Vocabulary {
        text: b"\"copy\" WORD NUMBER STRING \";\" \"->\" \"-\" \">\" \"+=\"",
        kinds: &SPELLINGS,
    }
}

struct Case {
    text: &'static [u8],
    tokens: &'static [(u8, usize)],
    fault: Option<FaultCode>,
}

// A text's tokens by kind and length, and the fault that ends it, if any.
static CASES: [Case; 26] = [
    Case {
        text: b"",
        tokens: &[],
        fault: None,
    },
    Case {
        text: b"copy it",
        tokens: &[(1, 4), (121, 1), (2, 2)],
        fault: None,
    },
    Case {
        text: b"copy_1 a_1",
        tokens: &[(2, 6), (121, 1), (2, 3)],
        fault: None,
    },
    Case {
        text: b"Copy9",
        tokens: &[(2, 5)],
        fault: None,
    },
    Case {
        text: b"12ab",
        tokens: &[(3, 2), (2, 2)],
        fault: None,
    },
    Case {
        text: b"_x",
        tokens: &[],
        fault: Some(FaultCode::BeginsNothing),
    },
    Case {
        text: b"a'b",
        tokens: &[(2, 1)],
        fault: Some(FaultCode::BeginsNothing),
    },
    Case {
        text: b"\0",
        tokens: &[],
        fault: Some(FaultCode::BeginsNothing),
    },
    Case {
        text: b"\x80",
        tokens: &[],
        fault: Some(FaultCode::BeginsNothing),
    },
    Case {
        text: b"\"\x80'\0\"",
        tokens: &[(4, 5)],
        fault: None,
    },
    Case {
        text: b"\"\"",
        tokens: &[(4, 2)],
        fault: None,
    },
    Case {
        text: b"\"",
        tokens: &[],
        fault: Some(FaultCode::Unclosed),
    },
    Case {
        text: b"; \"a\n\"",
        tokens: &[(5, 1), (121, 1)],
        fault: Some(FaultCode::Unclosed),
    },
    Case {
        text: b"\"a\rb\"",
        tokens: &[(4, 5)],
        fault: None,
    },
    Case {
        text: b" \t\r\n ;",
        tokens: &[(121, 5), (5, 1)],
        fault: None,
    },
    Case {
        text: b"# c\r\n;",
        tokens: &[(122, 4), (121, 1), (5, 1)],
        fault: None,
    },
    Case {
        text: b";# \xff\"",
        tokens: &[(5, 1), (122, 4)],
        fault: None,
    },
    Case {
        text: b"#",
        tokens: &[(122, 1)],
        fault: None,
    },
    Case {
        text: b"->",
        tokens: &[(6, 2)],
        fault: None,
    },
    Case {
        text: b"->>-",
        tokens: &[(6, 2), (8, 1), (7, 1)],
        fault: None,
    },
    Case {
        text: b"- >",
        tokens: &[(7, 1), (121, 1), (8, 1)],
        fault: None,
    },
    Case {
        text: b"-;",
        tokens: &[(7, 1), (5, 1)],
        fault: None,
    },
    Case {
        text: b"+=",
        tokens: &[(9, 2)],
        fault: None,
    },
    Case {
        text: b"+ =",
        tokens: &[],
        fault: Some(FaultCode::NoKind),
    },
    Case {
        text: b";+",
        tokens: &[(5, 1)],
        fault: Some(FaultCode::NoKind),
    },
    Case {
        text: b"copy\"a\"",
        tokens: &[(1, 4), (4, 3)],
        fault: None,
    },
];

// The look tells the token, again and again, and the take answers it.
fn takes<S: TokenSource>(rt: &impl Abort, source: &mut S, token: Token) {
    assert_eq!(rt; source.look(), Ok(Next::Token(token)));
    assert_eq!(rt; source.look(), Ok(Next::Token(token)));
    assert_eq!(rt; source.take(), Ok(token));
}

// Stands at its ending, and stays there.
fn ends<S: TokenSource>(rt: &impl Abort, source: &mut S, ending: Ending) {
    let (next, place) = match ending {
        Ending::End(place) => (Ok(Next::End(place)), place),
        Ending::Fault(fault) => (Err(fault), fault.place),
    };
    assert_eq!(rt; source.look(), next);
    assert_eq!(rt; source.take(), Err(NothingLeft { place }));
    assert_eq!(rt; source.look(), next);
}

fn is_cut_so(rt: &impl Abort, case: &Case) -> Result<(), Fail> {
    let mut source = TextSource::new(case.text, vocabulary())?;
    let mut place: usize = 0;
    for &(kind, length) in case.tokens {
        takes(
            rt,
            &mut source,
            Token {
                kind,
                place,
                length,
            },
        );
        place = place.saturating_add(length);
    }
    let ending = match case.fault {
        Some(code) => Ending::Fault(Fault { code, place }),
        None => Ending::End(place),
    };
    ends(rt, &mut source, ending);
    Ok(())
}

#[test]
fn texts(rt: HostRuntime) -> Result<(), Fail> {
    for case in &CASES {
        is_cut_so(&rt, case)?;
    }
    Ok(())
}

// What comes first in a text, if it is short enough.
fn first(text: &[u8]) -> Result<Result<Next, Fault>, TooLong> {
    Ok(TextSource::new(text, vocabulary())?.look())
}

fn token(kind: u8, length: usize) -> Result<Result<Next, Fault>, TooLong> {
    Ok(Ok(Next::Token(Token {
        kind,
        place: 0,
        length,
    })))
}

fn fault(code: FaultCode) -> Result<Result<Next, Fault>, TooLong> {
    Ok(Err(Fault { code, place: 0 }))
}

#[test]
fn lengths(rt: HostRuntime) {
    assert_eq!(rt; first(&[b'a'; 255]), token(2, 255));
    assert_eq!(rt; first(&[b'a'; 256]), fault(FaultCode::Oversized));
    assert_eq!(rt; first(&[b'7'; 255]), token(3, 255));
    assert_eq!(rt; first(&[b'7'; 256]), fault(FaultCode::Oversized));
    assert_eq!(rt; first(&[b' '; 300]), token(121, 300));
    assert_eq!(rt; first(&[b'#'; 300]), token(122, 300));
    let mut string = [b'a'; 256];
    string[0] = b'"';
    assert_eq!(rt; first(&string), fault(FaultCode::Unclosed));
    string[254] = b'"';
    assert_eq!(rt; first(&string), token(4, 255));
    string[254] = b'a';
    string[255] = b'"';
    assert_eq!(rt; first(&string), fault(FaultCode::Oversized));
    assert_eq!(rt; first(&[b' '; 32768]), token(121, 32768));
    assert_eq!(rt; first(&[b' '; 32769]), Err(TooLong { limit: 32768 }));
}

// The token of a stored kind.
fn stored(kind: u8, place: usize) -> Token {
    Token {
        kind,
        place,
        length: 1,
    }
}

fn out_of_range(place: usize) -> Ending {
    Ending::Fault(Fault {
        code: FaultCode::OutOfRange,
        place,
    })
}

#[test]
fn stored_kinds(rt: HostRuntime) {
    let mut source = ListSource::new(&[1, 122, 0, 7]);
    takes(&rt, &mut source, stored(1, 0));
    takes(&rt, &mut source, stored(122, 1));
    ends(&rt, &mut source, out_of_range(2));
}

#[test]
fn a_stored_123(rt: HostRuntime) {
    let mut source = ListSource::new(&[123]);
    ends(&rt, &mut source, out_of_range(0));
}

#[test]
fn skipped_kinds(rt: HostRuntime) {
    let list = ListSource::new(&[3, 1, 3, 3, 2, 3]);
    let mut source = Skipping::new(list, KindSet::empty().with(3));
    takes(&rt, &mut source, stored(1, 1));
    takes(&rt, &mut source, stored(2, 4));
    ends(&rt, &mut source, Ending::End(6));
}

// A token of kind 1 anywhere.
fn copy_at(place: usize, length: usize) -> Token {
    Token {
        kind: 1,
        place,
        length,
    }
}

#[test]
fn a_text_without_blanks(rt: HostRuntime) -> Result<(), Fail> {
    let mut source = layered(b"# x\n copy \t# y", vocabulary())?;
    takes(&rt, &mut source, copy_at(5, 4));
    ends(&rt, &mut source, Ending::End(14));
    Ok(())
}

#[test]
fn bytes(rt: HostRuntime) -> Result<(), Fail> {
    let source = TextSource::new(b"copy", vocabulary())?;
    assert_eq!(rt; source.bytes(copy_at(1, 3)), Some(b"opy".as_slice()));
    assert_eq!(rt; source.bytes(copy_at(2, 3)), None);
    assert_eq!(rt; source.bytes(copy_at(usize::MAX, 1)), None);
    Ok(())
}
