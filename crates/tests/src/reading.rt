// Texts, and what the reader answers: the number of the refusal and its column.
use fault::Flaw;
use line::{Line, read};

// Each of these is a line.
const LINES: [&str; 30] = [
    "a pass -> b",
    "a b = c -> d",
    "a b = 0 -> c",
    "a b = -1 -> c",
    "a b = 1234567890 -> c",
    "a b = 2147483647 -> c",
    "a b = -2147483648 -> c",
    "a b = c + d -> e",
    "a b = c - d -> e",
    "a b = c * d -> e",
    "a b = c / d -> e",
    "a b = c % d -> e",
    "a b = c < d -> e",
    "a b = c == d -> e",
    "a b = c & d -> e",
    "a b = 1 - -1 -> c",
    "a b = get -> c",
    "a put b -> c",
    "a put -7 -> c",
    "a if b -> c d",
    "a if 0 -> c c",
    "a halt",
    "abcdefgh halt",
    "pass pass -> pass",
    "halt halt",
    "if if a -> if if",
    "get b = get -> get",
    "put put c -> put",
    "   a   halt   ",
    "a  b  =  1  ->  c",
];

// Each of these is refused: the number of the refusal, and its column.
const REFUSED: [(&str, u8, usize); 74] = [
    ("a Halt", 2, 3),
    ("a b = 1 ! c", 2, 9),
    ("a halt\n", 2, 7),
    ("a halt\r", 2, 7),
    ("a\thalt", 2, 2),
    ("a b = c_d -> e", 2, 8),
    ("a b = 1.5 -> c", 2, 8),
    ("(a halt", 2, 1),
    ("!", 2, 1),
    ("\u{e9} halt", 2, 1),
    ("a halt\0", 2, 7),
    ("", 3, 1),
    (" ", 3, 2),
    ("a", 3, 2),
    ("a ", 3, 3),
    ("a if x -> b  ", 3, 14),
    ("pass -> b", 3, 6),
    ("halt", 3, 5),
    ("if n -> a b", 3, 6),
    ("a b = 1 + -> c", 3, 11),
    ("a b = 1 ->c", 3, 9),
    ("a b = 1 -1 -> c", 3, 9),
    ("a b=1 -> c", 3, 3),
    ("a b = 2147483648 + -> c", 3, 20),
    ("a b = 007 -> c", 3, 7),
    ("a b = -0 -> c", 3, 7),
    ("a b = +1 -> c", 3, 7),
    ("a b = 12345678901 -> c", 3, 7),
    ("a b = -12345678901 -> c", 3, 7),
    ("abcdefghi halt", 3, 1),
    ("a1 halt", 3, 1),
    ("1 halt", 3, 1),
    ("= halt", 3, 1),
    ("-> halt", 3, 1),
    ("a halt -> b", 3, 8),
    ("a halt b", 3, 8),
    ("a halthalt", 3, 3),
    ("a pass", 3, 7),
    ("a pass b", 3, 8),
    ("a pass ->", 3, 10),
    ("a pass -> 1", 3, 11),
    ("a pass -> b c", 3, 13),
    ("a pass-> b", 3, 3),
    ("a if b -> c", 3, 12),
    ("a if b -> c d e", 3, 15),
    ("a if -> b c", 3, 6),
    ("a ifb -> c d", 3, 3),
    ("a put -> b", 3, 7),
    ("a put get -> b", 3, 7),
    ("a put 1 + 2 -> b", 3, 9),
    ("a get = 1 -> c", 3, 3),
    ("a pass = 1 -> c", 3, 8),
    ("a bb = 1 -> c", 3, 3),
    ("a b = cc -> d", 3, 7),
    ("a b == 1 -> c", 3, 5),
    ("a b = c = d -> e", 3, 9),
    ("a b = c == -> d", 3, 12),
    ("a b = c <= d -> e", 3, 9),
    ("a b = c === d -> e", 3, 9),
    ("a b = get + 1 -> c", 3, 11),
    ("a b = - 1 -> c", 3, 7),
    ("a b = c - 1", 3, 12),
    ("a b =", 3, 6),
    ("a b", 3, 4),
    ("a -> b", 3, 3),
    ("a b = c > d -> e", 3, 9),
    ("a b = 2147483648 -> c", 4, 7),
    ("a b = -2147483649 -> c", 4, 7),
    ("a b = 9999999999 -> c", 4, 7),
    ("a b = 1 + 2147483648 -> c", 4, 11),
    ("a b = 2147483648 + 9999999999 -> c", 4, 7),
    ("a if -9999999999 -> b c", 4, 6),
    ("a put 2147483648 -> b", 4, 7),
    ("   a b = 4294967296 -> c", 4, 10),
];

// The number of the refusal and its column, or 0 and 0 for a line.
fn answered(answer: Result<Line, Flaw>) -> (u8, usize) {
    match answer {
        Ok(_) => (0, 0),
        Err(flaw) => (flaw.kind.number(), flaw.column),
    }
}

#[test]
fn lines_are_read(rt: HostRuntime) {
    let lines: &[&str; 30] = &LINES;
    for text in lines {
        assert_eq!(rt; answered(read(text.as_bytes())), (0, 0), "{}", *text);
    }
}

#[test]
fn other_texts_are_refused(rt: HostRuntime) {
    let rows: &[(&str, u8, usize); 74] = &REFUSED;
    for row in rows {
        let text = row.0;
        assert_eq!(rt; answered(read(text.as_bytes())), (row.1, row.2), "{}", text);
    }
}

// `a halt` and spaces after it, of 79, 80 and 81 bytes; and 80 and 81 spaces alone.
#[test]
fn eighty_bytes(rt: HostRuntime) {
    let mut text = [b' '; 81];
    assert_eq!(rt; answered(read(&text[0..80])), (3, 81));
    assert_eq!(rt; answered(read(&text)), (1, 81));
    text[0] = b'a';
    text[2..6].copy_from_slice(b"halt");
    assert_eq!(rt; answered(read(&text[0..79])), (0, 0));
    assert_eq!(rt; answered(read(&text[0..80])), (0, 0));
    assert_eq!(rt; answered(read(&text)), (1, 81));
    text[1] = b'!';
    assert_eq!(rt;
        answered(read(&text)),
        (1, 81),
        "too long comes before a foreign byte"
    );
    assert_eq!(rt; answered(read(&text[0..80])), (2, 2));
}
