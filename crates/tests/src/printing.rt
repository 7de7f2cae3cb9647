// Texts, how the line that each spells is printed, and buffers of every size about a line's length.
use fault::{Flaw, Kind};
use line::{LONGEST, read};
use std::test::Fail;

// A text, and the line that it spells as it is printed.
const PRINTED: [(&str, &str); 15] = [
    ("  a   pass ->   b ", "a pass -> b"),
    ("a b = c -> d", "a b = c -> d"),
    ("left d = n - s -> join", "left d = n - s -> join"),
    (
        "a b = -2147483648 * 2147483647 -> c",
        "a b = -2147483648 * 2147483647 -> c",
    ),
    ("a b = 0 + 10 -> c", "a b = 0 + 10 -> c"),
    ("a b = c / d -> e", "a b = c / d -> e"),
    ("a b = c % d -> e", "a b = c % d -> e"),
    ("a b = c < d -> e", "a b = c < d -> e"),
    ("a b = c  ==  d -> e", "a b = c == d -> e"),
    ("a b = c & d -> e", "a b = c & d -> e"),
    ("in n = get -> test", "in n = get -> test"),
    ("out put -7 -> end", "out put -7 -> end"),
    ("test if n -> left right ", "test if n -> left right"),
    ("halt halt", "halt halt"),
    (
        "abcdefgh a = -2147483648 == -2147483648 -> abcdefgh",
        "abcdefgh a = -2147483648 == -2147483648 -> abcdefgh",
    ),
];

#[test]
fn lines_are_printed(rt: HostRuntime) -> Result<(), Fail> {
    let rows: &[(&str, &str); 15] = &PRINTED;
    for row in rows {
        let mut buffer = [0u8; LONGEST];
        let line = match read(row.0.as_bytes()) {
            Ok(line) => line,
            Err(_) => return Err(Fail::new(row.0)),
        };
        match line.print(&mut buffer) {
            Ok(size) => {
                assert!(rt; size <= LONGEST);
                assert!(rt; &buffer[0..size] == row.1.as_bytes(), "{}", row.0);
            }
            Err(_) => return Err(Fail::new(row.0)),
        }
    }
    Ok(())
}

#[test]
fn the_longest_line_has_51_bytes(rt: HostRuntime) {
    let rows: &[(&str, &str); 15] = &PRINTED;
    assert_eq!(rt; rows[14].1.len(), LONGEST);
    assert_eq!(rt; LONGEST, 51);
}

// `a halt` has six bytes.
#[test]
fn buffers_keep_what_is_not_printed(rt: HostRuntime) -> Result<(), Fail> {
    let line = match read(b"a halt") {
        Ok(line) => line,
        Err(_) => return Err(Fail::new("a halt is a line")),
    };
    let short = Flaw {
        kind: Kind::ShortBuffer,
        column: 0,
    };
    let mut none = [0u8; 0];
    assert_eq!(rt; line.print(&mut none), Err(short));
    let mut five = *b"-----";
    assert_eq!(rt; line.print(&mut five), Err(short));
    assert_eq!(rt; five, *b"-----");
    let mut six = *b"------";
    assert_eq!(rt; line.print(&mut six), Ok(6));
    assert_eq!(rt; six, *b"a halt");
    let mut eight = *b"--------";
    assert_eq!(rt; line.print(&mut eight), Ok(6));
    assert_eq!(rt; eight, *b"a halt--");
    Ok(())
}
