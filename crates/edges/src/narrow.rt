// Tables that are too small for a text, and tables that just hold it.
use crate::lent::{counts, is_told};
use grammar::Counts;

// A text that is refused where there is this room: the number, and the first value.
struct Narrow(&'static [u8], Counts, u8, usize);

static NARROW: [Narrow; 34] = [
    Narrow(b"", counts!(0, 0, 0), 3, 0),
    Narrow(b")", counts!(0, 0, 0), 3, 0),
    Narrow(b"7", counts!(0, 0, 0), 2, 0),
    Narrow(b" a", counts!(0, 9, 9), 6, 1),
    Narrow(b"a -> ;", counts!(0, 9, 9), 6, 0),
    Narrow(b"a -> b ;", counts!(1, 9, 9), 6, 5),
    Narrow(b"a -> ; b -> ;", counts!(1, 9, 9), 6, 7),
    Narrow(b"a -> a ; a -> ;", counts!(1, 9, 9), 9, 9),
    Narrow(b"a -> WORD ;", counts!(9, 0, 9), 7, 5),
    Narrow(b"a -> \"x\" ;", counts!(9, 0, 9), 7, 5),
    Narrow(b"a -> \"x y\" ;", counts!(9, 0, 9), 5, 5),
    Narrow(b"a -> \"x\" \"y\" \"z\" ;", counts!(9, 2, 9), 7, 13),
    Narrow(b"a -> \"x\" WORD \"x\" \"WORD\"", counts!(9, 2, 9), 7, 18),
    Narrow(b"a -> b )", counts!(9, 9, 0), 8, 0),
    Narrow(b"a -> WORD )", counts!(9, 9, 0), 8, 0),
    Narrow(b"a -> | )", counts!(9, 9, 0), 8, 0),
    Narrow(b"a -> ; )", counts!(9, 9, 0), 8, 0),
    Narrow(b"a -> ( ) )", counts!(9, 9, 0), 8, 0),
    Narrow(b"a ->", counts!(9, 9, 0), 3, 4),
    Narrow(b"a -> )", counts!(9, 9, 0), 3, 5),
    Narrow(b"a -> ( ;", counts!(9, 9, 0), 3, 7),
    Narrow(b"a -> ( ]", counts!(9, 9, 0), 3, 7),
    Narrow(b"a -> \"x y\" ;", counts!(9, 9, 0), 5, 5),
    Narrow(b"a -> b ;", counts!(1, 9, 0), 6, 5),
    Narrow(b"a -> WORD ;", counts!(9, 0, 0), 7, 5),
    Narrow(b"a -> ; b -> ;", counts!(9, 9, 1), 8, 1),
    Narrow(b"a -> ; a -> ;", counts!(9, 9, 1), 9, 7),
    Narrow(b"a -> [ ] ;", counts!(9, 9, 1), 8, 1),
    Narrow(b"a -> WORD | ;", counts!(9, 9, 2), 8, 2),
    Narrow(b"a -> WORD WORD WORD WORD )", counts!(9, 9, 3), 8, 3),
    Narrow(b"a -> WORD WORD WORD ;", counts!(9, 9, 3), 8, 3),
    Narrow(b"a -> WORD WORD WORD )", counts!(9, 9, 3), 3, 20),
    Narrow(b"a -> { WORD WORD } )", counts!(9, 9, 3), 8, 3),
    Narrow(b"a -> WORD | WORD | ) ;", counts!(9, 9, 2), 3, 19),
];

#[test]
fn narrow_tables(rt: HostRuntime) {
    for &Narrow(text, room, number, value) in &NARROW {
        is_told(&rt, text, room, Err((number, value)));
    }
}

// A text that just fits.
struct Fitting(&'static [u8], Counts);

static FITTING: [Fitting; 5] = [
    Fitting(b"a -> ;", counts!(1, 0, 1)),
    Fitting(b"a -> a ;", counts!(1, 0, 1)),
    Fitting(b"a -> \"x\" \"y\" ;", counts!(1, 2, 3)),
    Fitting(b"a -> { WORD | } ;", counts!(1, 1, 4)),
    Fitting(b"a -> b b ; b -> WORD [ WORD ] ;", counts!(2, 1, 7)),
];

#[test]
fn tables_that_fit(rt: HostRuntime) {
    for &Fitting(text, room) in &FITTING {
        is_told(&rt, text, room, Ok(room));
    }
}
