use super::*;

// What these lines come to: six of number 1, of which one is a row.
const SIX: &[u8] = b"lines 6\ncreated 1\ndeleted 0\nrefused 0\nrows 1\nbytes 21\ndone 6\n";

// The first three lines of number 1, over two streams.
const THREE_LINES: &[u8] = b"create select from a where v1 < 30000\n\
    rec a 20 17 35963 3 24220 0\nrec b 30 24 21722 1 16810 0\n";

#[test]
fn lines_are_generated(rt: HostRuntime) -> Result<(), Fail> {
    let alloc = rt.alloc();
    let words = "generate --number 1 --lines 3 --streams 2";
    answers(&rt, alloc, words, b"", THREE_LINES, b"not begun")
}

#[test]
fn a_soak_tells_what_its_lines_come_to(rt: HostRuntime) -> Result<(), Fail> {
    let alloc = rt.alloc();
    let none = b"lines 0\ncreated 0\ndeleted 0\nrefused 0\nrows 0\nbytes 0\ndone 0\n";
    let six = "soak --number 1 --lines 6 --streams 2";
    answers(&rt, alloc, six, b"", SIX, b"not begun")?;
    answers(
        &rt,
        alloc,
        "soak --number 1 --lines 0",
        b"",
        none,
        b"not begun",
    )
}

// The say of this number fails after so many bytes: the lines that are told then, and what was said.
fn is_cut<R: Threads + Sync + Abort>(
    rt: &R,
    alloc: Global,
    words: &str,
    failing: (u64, usize),
    lines: u64,
    wanted: &[u8],
) -> Result<(), Fail> {
    let mut desk = desk(alloc, b"", &[], Some(failing))?;
    let report = called(rt, alloc, &mut desk, words)?;
    assert!(rt; report.status == Status::AnswerFault && report.lines == lines);
    assert!(rt; said(alloc, desk.log())?.as_slice() == wanted);
    Ok(())
}

#[test]
fn a_failed_say_ends_both(rt: HostRuntime) -> Result<(), Fail> {
    let alloc = rt.alloc();
    let three = "generate --number 1 --lines 3 --streams 2";
    let six = "soak --number 1 --lines 6 --streams 2";
    is_cut(&rt, alloc, three, (2, 5), 1, &THREE_LINES[..43])?;
    is_cut(&rt, alloc, six, (1, 7), 6, &SIX[..7])
}

#[test]
fn the_same_number_soaks_the_same(rt: HostRuntime) -> Result<(), Fail> {
    let alloc = rt.alloc();
    let words = "soak --number 7 --lines 20000";
    let mut first = desk(alloc, b"", &[], None)?;
    let mut second = desk(alloc, b"", &[], None)?;
    assert!(rt; called(&rt, alloc, &mut first, words)?.status == Status::Done);
    assert!(rt; called(&rt, alloc, &mut second, words)?.status == Status::Done);
    assert!(rt; said(alloc, first.log())?.as_slice() == said(alloc, second.log())?.as_slice());
    Ok(())
}
