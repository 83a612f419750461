// Texts that are refused in ample tables.
use crate::lent::{AMPLE, has_fault, is_told};

// A text that is refused: the number, and the first value.
struct Refused(&'static [u8], u8, usize);

static REFUSED: [Refused; 69] = [
    Refused(b"", 3, 0),
    Refused(b" \n", 3, 2),
    Refused(b"# a -> ;", 3, 8),
    Refused(b"a", 3, 1),
    Refused(b"a ->", 3, 4),
    Refused(b"a -> b", 3, 6),
    Refused(b"a -> b # ;", 3, 10),
    Refused(b"a -> b ; b", 3, 10),
    Refused(b"a -> ( b", 3, 8),
    Refused(b"a b", 3, 2),
    Refused(b"a ;", 3, 2),
    Refused(b"a | b", 3, 2),
    Refused(b"a \"x\" ;", 3, 2),
    Refused(b"-> ;", 3, 0),
    Refused(b"; a -> ;", 3, 0),
    Refused(b"( a -> ; )", 3, 0),
    Refused(b"\"x\" -> ;", 3, 0),
    Refused(b"WORD -> ;", 3, 0),
    Refused(b"NUMBER -> ;", 3, 0),
    Refused(b"STRING -> ;", 3, 0),
    Refused(b"a -> -> ;", 3, 5),
    Refused(b"a -> b -> ;", 3, 7),
    Refused(b"a -> ( -> ) ;", 3, 7),
    Refused(b"a -> ) ;", 3, 5),
    Refused(b"a -> ] ;", 3, 5),
    Refused(b"a -> } ;", 3, 5),
    Refused(b"a -> ( ] ;", 3, 7),
    Refused(b"a -> ( } ;", 3, 7),
    Refused(b"a -> [ ) ;", 3, 7),
    Refused(b"a -> [ } ;", 3, 7),
    Refused(b"a -> { ) ;", 3, 7),
    Refused(b"a -> { ] ;", 3, 7),
    Refused(b"a -> ( ;", 3, 7),
    Refused(b"a -> ( [ ) ] ;", 3, 9),
    Refused(b"a -> ( ) ) ;", 3, 9),
    Refused(b"a -> ; ;", 3, 7),
    Refused(b"a -> ; | b ;", 3, 7),
    Refused(b"a -> \"\" ;", 5, 5),
    Refused(b"a -> \"x y\" ;", 5, 5),
    Refused(b"a -> \" x\" ;", 5, 5),
    Refused(b"a -> \"+++\" ;", 5, 5),
    Refused(b"a -> \"a+\" ;", 5, 5),
    Refused(b"a -> \"+a\" ;", 5, 5),
    Refused(b"a -> \"7\" ;", 5, 5),
    Refused(b"a -> \"_a\" ;", 5, 5),
    Refused(b"a -> \"'\" ;", 5, 5),
    Refused(b"a -> \"#\" ;", 5, 5),
    Refused(b"a -> \"+\\\" ;", 5, 5),
    Refused(b"a -> \"\xc3\xa9\" ;", 5, 5),
    Refused(b"a -> \"a\xc3\xa9\" ;", 5, 5),
    Refused(b"a -> ; a -> ;", 9, 7),
    Refused(b"a -> ; a", 9, 7),
    Refused(b"a -> ; a ;", 9, 7),
    Refused(b"a -> ; a 7", 9, 7),
    Refused(b"a -> ; b -> ; a -> b ;", 9, 14),
    Refused(b"a -> b ; b -> ; b -> ;", 9, 16),
    Refused(b"a -> b ;", 10, 5),
    Refused(b"a -> b c ;", 10, 5),
    Refused(b"a -> b c ; b -> ;", 10, 7),
    Refused(b"a -> [ b ] b ; c -> ;", 10, 7),
    Refused(b"a -> A ; A -> AA ;", 10, 14),
    Refused(b"a -> WORDS word ;", 10, 5),
    // The first token at which something is wrong, and the lowest number there.
    Refused(b"\"x y\" -> ;", 3, 0),
    Refused(b"a -> \"x y\" ) ;", 5, 5),
    Refused(b"a -> ) \"x y\" ;", 3, 5),
    Refused(b"a -> ) 7 ;", 3, 5),
    Refused(b"a -> b ) ;", 3, 7),
    Refused(b"a -> ; a -> ) ;", 9, 7),
    Refused(b"a -> b ; a -> ;", 9, 9),
];

#[test]
fn refusals(rt: HostRuntime) {
    for &Refused(text, number, value) in &REFUSED {
        is_told(&rt, text, AMPLE, Err((number, value)));
    }
}

// A text with a fault: its place, and its code.
struct Faulty(&'static [u8], usize, u8);

static FAULTY: [Faulty; 14] = [
    Faulty(b"_a -> ;", 0, 1),
    Faulty(b"a -> 'x' ;", 5, 1),
    Faulty(b"a -> \\ ;", 5, 1),
    Faulty(b"a -> \xc3\xa9 ;", 5, 1),
    Faulty(b"a -> \"x", 5, 2),
    Faulty(b"a -> \"x\ny\" ;", 5, 2),
    Faulty(b"7", 0, 4),
    Faulty(b"a 7", 2, 4),
    Faulty(b"a - > ;", 2, 4),
    Faulty(b"a -> 7 ;", 5, 4),
    Faulty(b"a -> + ;", 5, 4),
    Faulty(b"a -> ( 7", 7, 4),
    Faulty(b"a -> b ; 7", 9, 4),
    Faulty(b"a -> 7 ) \"x y\"", 5, 4),
];

#[test]
fn faults(rt: HostRuntime) {
    for &Faulty(text, place, code) in &FAULTY {
        is_told(&rt, text, AMPLE, Err((2, place)));
        has_fault(&rt, text, code);
    }
}
