// The lines that tell how grammars are judged.
use crate::lent::shown;
use lines::judged_line;
use std::alloc::AllocError;

// A grammar's text, and the line that says how it is judged.
struct Told(&'static [u8], &'static [u8]);

static TOLD: [Told; 6] = [
    Told(
        b"a -> b [ b ] | ; b -> \"x\" ;",
        b"grammar 2 rules 7 nodes 1 kinds",
    ),
    Told(b"", b"refused 3 at 0"),
    Told(b"a -> b ;", b"refused 10 at 5"),
    Told(b"a -> ' ;", b"refused 2 at 5 code 1"),
    Told(b"a -> + ;", b"refused 2 at 5 code 4"),
    Told(b"a -> \"x", b"refused 2 at 5 code 2"),
];

#[test]
fn told_lines(rt: HostRuntime) -> Result<(), AllocError> {
    for &Told(text, line) in &TOLD {
        let out = judged_line(rt.alloc(), text)?;
        assert_eq!(rt; out.as_slice(), line, "{}", shown(text));
    }
    Ok(())
}
