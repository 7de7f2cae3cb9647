// Drafts of 0, 95 and 96 lines, and lists of edits.
use draft::{Draft, Edit, MOST_LINES, replay};
use fault::{Fault, Kind};
use std::process::Abort;
use std::test::Fail;

fn refused(kind: Kind, line: usize, column: usize) -> Result<usize, Fault> {
    Err(Fault { kind, line, column })
}

#[test]
fn an_empty_draft(rt: HostRuntime) -> Result<(), Fail> {
    let mut draft = Draft::new(rt.alloc())?;
    let mut buffer = *b"untouched";
    assert_eq!(rt; draft.len(), 0);
    assert_eq!(rt; draft.strike(), refused(Kind::NoSuchLine, 0, 0));
    assert_eq!(rt; draft.mend(0, b"a halt"), refused(Kind::NoSuchLine, 0, 0));
    assert_eq!(rt; draft.mend(1, b"a halt"), refused(Kind::NoSuchLine, 1, 0));
    assert_eq!(rt;
        draft.mend(1, b"!"),
        refused(Kind::NoSuchLine, 1, 0),
        "no such line comes before the text"
    );
    assert_eq!(rt;
        draft.print(0, &mut buffer),
        refused(Kind::NoSuchLine, 0, 0)
    );
    assert_eq!(rt;
        draft.print(1, &mut buffer),
        refused(Kind::NoSuchLine, 1, 0)
    );
    assert_eq!(rt; buffer, *b"untouched");
    assert_eq!(rt;
        draft.add(b"a b = 1 + -> c"),
        refused(Kind::NotALine, 1, 11)
    );
    assert_eq!(rt;
        draft.add(b"a b = 2147483648 -> c"),
        refused(Kind::OutOfRange, 1, 7)
    );
    assert_eq!(rt; draft.len(), 0);
    Ok(())
}

#[test]
fn one_line(rt: HostRuntime) -> Result<(), Fail> {
    let mut draft = Draft::new(rt.alloc())?;
    let mut buffer = *b"--------";
    let mut short = *b"-----";
    assert_eq!(rt; draft.add(b"a halt"), Ok(1));
    assert_eq!(rt;
        draft.mend(1, b"b halt halt"),
        refused(Kind::NotALine, 1, 8)
    );
    assert_eq!(rt; draft.mend(2, b"b halt"), refused(Kind::NoSuchLine, 2, 0));
    assert_eq!(rt;
        draft.print(1, &mut short),
        refused(Kind::ShortBuffer, 1, 0)
    );
    assert_eq!(rt; short, *b"-----");
    assert_eq!(rt;
        draft.print(2, &mut short),
        refused(Kind::NoSuchLine, 2, 0),
        "no such line comes before a short buffer"
    );
    assert_eq!(rt; draft.print(1, &mut buffer), Ok(6));
    assert_eq!(rt; buffer, *b"a halt--");
    assert_eq!(rt; draft.mend(1, b"  b   halt"), Ok(1));
    assert_eq!(rt; draft.print(1, &mut buffer), Ok(6));
    assert_eq!(rt; buffer, *b"b halt--");
    assert_eq!(rt; draft.strike(), Ok(1));
    assert_eq!(rt; draft.len(), 0);
    Ok(())
}

fn filled(rt: &(impl Abort + AllocGlobal), count: usize) -> Result<Draft, Fail> {
    let mut draft = Draft::new(rt.alloc())?;
    for _ in 0..count {
        assert!(rt; draft.add(b"a pass -> a").is_ok());
    }
    Ok(draft)
}

#[test]
fn the_ninety_sixth_line(rt: HostRuntime) -> Result<(), Fail> {
    let mut draft = filled(&rt, 95)?;
    assert_eq!(rt; draft.len(), 95);
    assert_eq!(rt; draft.mend(96, b"a halt"), refused(Kind::NoSuchLine, 96, 0));
    assert_eq!(rt; draft.add(b"a halt halt"), refused(Kind::NotALine, 96, 8));
    assert_eq!(rt; draft.add(b"a halt"), Ok(96));
    assert_eq!(rt; draft.len(), MOST_LINES);
    Ok(())
}

#[test]
fn a_full_draft(rt: HostRuntime) -> Result<(), Fail> {
    let mut draft = filled(&rt, 96)?;
    let mut buffer = [0u8; 6];
    assert_eq!(rt; draft.add(b"a halt"), refused(Kind::DraftFull, 97, 0));
    assert_eq!(rt;
        draft.add(b"a halt halt"),
        refused(Kind::NotALine, 97, 8),
        "the text comes before the full draft"
    );
    assert_eq!(rt; draft.mend(97, b"a halt"), refused(Kind::NoSuchLine, 97, 0));
    assert_eq!(rt; draft.mend(96, b"a halt"), Ok(96));
    assert_eq!(rt; draft.print(96, &mut buffer), Ok(6));
    assert_eq!(rt;
        draft.print(95, &mut buffer),
        refused(Kind::ShortBuffer, 95, 0)
    );
    assert_eq!(rt; draft.strike(), Ok(96));
    assert_eq!(rt; draft.len(), 95);
    assert_eq!(rt; draft.add(b"a halt"), Ok(96));
    assert_eq!(rt; draft.len(), 96);
    Ok(())
}

#[test]
fn a_list_of_edits(rt: HostRuntime) -> Result<(), Fail> {
    let edits = [
        Edit::Strike,
        Edit::Add(b"in n = get -> out"),
        Edit::Add(b"out put n -> end "),
        Edit::Add(b"end halt now"),
        Edit::Mend(2, b"out put 1 -> end"),
        Edit::Mend(3, b"end halt"),
        Edit::Add(b"end halt"),
        Edit::Strike,
    ];
    let made = replay(rt.alloc(), &edits)?;
    assert_eq!(rt; made.draft.len(), 2);
    assert!(rt; made.answers.len() == 8);
    assert_eq!(rt; made.answers[0], refused(Kind::NoSuchLine, 0, 0));
    assert_eq!(rt; made.answers[1], Ok(1));
    assert_eq!(rt; made.answers[2], Ok(2));
    assert_eq!(rt; made.answers[3], refused(Kind::NotALine, 3, 10));
    assert_eq!(rt; made.answers[4], Ok(2));
    assert_eq!(rt; made.answers[5], refused(Kind::NoSuchLine, 3, 0));
    assert_eq!(rt; made.answers[6], Ok(3));
    assert_eq!(rt; made.answers[7], Ok(3));
    let mut buffer = [0u8; 16];
    assert_eq!(rt; made.draft.print(2, &mut buffer), Ok(16));
    assert_eq!(rt; buffer, *b"out put 1 -> end");
    Ok(())
}

#[test]
fn edits_on_a_draft_with_lines(rt: HostRuntime) -> Result<(), Fail> {
    let mut draft = Draft::new(rt.alloc())?;
    assert_eq!(rt; draft.apply(Edit::Add(b"a pass -> b")), Ok(1));
    let answers = draft.apply_all(
        rt.alloc(),
        &[
            Edit::Add(b"b halt"),
            Edit::Mend(1, b"c halt"),
            Edit::Add(b"b"),
        ],
    )?;
    assert!(rt; answers.len() == 3);
    assert_eq!(rt; answers[0], Ok(2));
    assert_eq!(rt; answers[1], Ok(1));
    assert_eq!(rt; answers[2], refused(Kind::NotALine, 3, 2));
    let mut buffer = [0u8; 6];
    assert_eq!(rt; draft.print(1, &mut buffer), Ok(6));
    assert_eq!(rt; buffer, *b"c halt");
    assert_eq!(rt; draft.len(), 2);
    Ok(())
}
