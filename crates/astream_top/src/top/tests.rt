use super::*;

mod generated;

use as_base::Bytes;
use as_outside::{Entry, FreeGate, MemDesk};
use as_words::append_decimal;
use std::process::Abort;
use std::test::Fail;

// One query's only row, which its watermark passes.
const PASSED: &[u8] = b"create select from a\nrec a 5 1 10 0 0 0\nmark a 6\n";

// The same, and a line that nothing ends.
const UNFINISHED: &[u8] = b"create select from a\nrec a 5 1 10 0 0 0\nmark a 6\nmark a";

// Two queries, and a row of both, which the watermark passes.
const TWO: &[u8] = b"create select from a\ncreate select from a\nrec a 5 1 10 0 0 0\nmark a 6\n";

// Three queries, created at 0, at 2 and at 3.
const THREE: &[u8] =
    b"create select from a\nrec a 1 7 1 0 0 0\ncreate select from a\nrec a 2 7 2 0 0 0\n\
    rec a 2 7 3 0 0 0\ncreate select from a\nrec a 3 7 4 0 0 -5\nmark a 3\n";

// The second query is created at 6, after the time of both records, also of the one that comes after it.
const AFTER: &[u8] =
    b"create select from a\nrec a 5 1 0 0 0 0\ncreate select from a\nrec a 5 2 0 0 0 0\nmark a 6\n";

// Items that come too late, and such of an ended stream.
const REFUSED: &[u8] =
    b"create select from a\nrec a 10 1 0 0 0 0\nrec a 9 1 0 0 0 0\nmark a 4\nmark a 3\nend a\n\
    rec a 11 1 0 0 0 0\nmark b 1\nend a\n";

// Refusals in their order, over two streams.
const ORDER: &[u8] =
    b"create select form a\ncreate join a a tumble 5\ncreate count by all from a tumble 0\ndelete 9\n\
    create\ncreate select from a where v1 <\ncreate select from d\nrec d 1 1 0 0 0 0\nend a\n\
    mark a 5\nmark b 7\nmark b 6\n";

// The one slot is full, and free again from the deletion on.
const FULL: &[u8] = b"create select from a\ncreate select from a\ndelete 1\ncreate select from a\n";

// Two queries of one slot and one time, of which the second has the record.
const REUSED: &[u8] =
    b"create select from a\ndelete 1\ncreate select from a\nrec a 0 1 1 0 0 0\nmark a 1\n";

// A deleted query of stream b, which its own watermark passes, and that of no other stream.
const DELETED: &[u8] =
    b"create select from b where v1 > 4\nrec b 5 1 9 0 0 0\nmark a 9\nrec b 6 1 4 0 0 0\ndelete 1\n\
    rec b 7 1 5 0 0 0\nrec b 10 1 5 0 0 0\nmark b 8\n";

// One slot and one window have two holders, one after the other.
const HOLDERS: &[u8] = b"create count by all from a tumble 100\nrec a 10 7 3 0 0 0\ndelete 1\n\
    create sum v1 by all from a tumble 100\nrec a 40 7 5 0 0 0\nmark a 100\n";

// Each record lies in two windows.
const SLIDING: &[u8] =
    b"create sum v1 by key from a slide 10 5\nrec a 7 1 3 0 0 0\nrec a 12 1 4 0 0 0\nmark a 20\n";

// A record comes too late to be counted.
const LATE: &[u8] =
    b"create count by all from a tumble 100\nrec a 10 1 0 0 0 0\nrec a 9 1 0 0 0 0\n\
    rec a 10 1 0 0 0 0\n";

// The end of the query's life cuts its window.
const CUT: &[u8] =
    b"create count by all from a tumble 1000\nrec a 50 1 0 0 0 0\nmark a 100\ndelete 1\n\
    mark a 100\nmark a 101\n";

// Watermarks before and at a window's end.
const EDGE: &[u8] =
    b"create count by all from a tumble 10\nrec a 3 1 0 0 0 0\nmark a 9\nrec a 10 1 0 0 0 0\n\
    mark a 10\n";

// A watermark passes all windows at once.
const AT_ONCE: &[u8] =
    b"create count by all from a tumble 1\nrec a 0 1 0 0 0 0\nmark a 4611686018427387903\n";

// The last window of all.
const LAST: &[u8] =
    b"create count by all from a tumble 10\nrec a 4611686018427387903 1 0 0 0 0\ndelete 1\n";

// A sum of more than 64 bits.
const WIDE: &[u8] = b"create sum v1 by v2 from a tumble 10\nrec a 1 3 9223372036854775807 5 0 0\n\
    rec a 2 4 9223372036854775807 5 0 0\nmark a 10\n";

// One slot and one window have two joins, one after the other.
const TWO_JOINS: &[u8] =
    b"create join a b tumble 100\nrec a 10 7 0 0 0 0\ndelete 1\ncreate join a b tumble 100\n\
    rec a 20 7 0 0 0 0\nrec b 5 7 0 0 0 0\nrec b 30 7 0 0 0 0\nmark a 100\nmark b 100\n";

// Two equal records on each side.
const EQUAL: &[u8] =
    b"create join a b tumble 10\nrec a 1 7 0 0 0 0\nrec a 1 7 0 0 0 0\nrec b 2 7 0 0 0 0\n\
    rec b 2 7 0 0 0 0\n";

// Two equal records on the left, and two on the right that do not come in the order of their rows.
const CROSSED: &[u8] =
    b"create join a b tumble 10\nrec a 1 7 3 0 0 0\nrec a 1 7 3 0 0 0\nrec b 8 7 9 0 0 0\n\
    rec b 8 7 5 0 0 0\n";

// An hour of clicks on stream a and of purchases on stream b.
const CLICKS: &[u8] =
    b"create count by all from a tumble 600000\ncreate count by v1 from a tumble 1800000\n\
    create sum v1 by key from b tumble 1800000\ncreate select from b where v1 >= 5000\n\
    create join a b tumble 600000 left v1 = 3\n\
    create sum v1 by all from b slide 1200000 600000\nrec a 60000 101 3 20 0 0\n\
    rec a 120000 102 1 15 0 0\nrec b 180000 101 2500 7 0 0\nmark a 600000\nmark b 600000\n\
    rec a 700000 102 3 9 0 0\nrec b 900000 102 7000 8 0 0\ndelete 1\n\
    create count by key from a tumble 900000\ncreate select from a where key = 101\n\
    rec a 1000000 101 2 30 0 0\nmark a 1200000\nmark b 1200000\ndelete 4\n\
    create select from b where v1 < 5000\ndelete 5\ncreate join a b tumble 1200000\n\
    create sum v1 by v2 from b tumble 3600000\ncreate count by all from b tumble 600000\n\
    rec a 1300000 101 3 12 0 0\nrec b 1500000 101 4000 7 0 0\nrec b 1800000 102 6000 8 0 0\n\
    rec a 1900000 102 3 5 0 0\nmark a 3600000\nmark b 3600000\n";

// What is said in that hour.
const CLICK_ANSWERS: &[u8] =
    b"1 created 1 at 0\n2 created 2 at 0\n3 created 3 at 0\n4 created 4 at 0\n\
    5 created 5 at 0\n6 created 6 at 0\n14 deleted 1 at 900001\n15 created 7 at 900001\n\
    16 created 8 at 900001\n20 deleted 4 at 1200001\n21 created 9 at 1200001\n\
    22 deleted 5 at 1200001\n23 created 10 at 1200001\n24 created 11 at 1200001\n\
    25 created 12 at 1200001\ndone 31\n";

// What the outputs hold after that hour, each after a line with its number.
const CLICK_OUTPUTS: &[u8] =
    b"output 1\n0 600000 2\n600000 1200000 1\noutput 2\n0 1800000 1 1\n0 1800000 2 1\n\
    0 1800000 3 3\n1800000 3600000 3 1\noutput 3\n0 1800000 101 6500\n0 1800000 102 7000\n\
    1800000 3600000 102 6000\noutput 4\n900000 102 7000 8 0 0\noutput 5\n\
    0 600000 101 60000 3 20 0 0 180000 2500 7 0 0\n\
    600000 1200000 102 700000 3 9 0 0 900000 7000 8 0 0\noutput 6\n0 1200000 9500\n\
    600000 1800000 11000\n1200000 2400000 10000\n1800000 3000000 6000\noutput 7\n\
    900000 1800000 101 2\n1800000 2700000 102 1\noutput 8\n1000000 101 2 30 0 0\n\
    1300000 101 3 12 0 0\noutput 9\n1500000 101 4000 7 0 0\noutput 10\n\
    1200000 2400000 101 1300000 3 12 0 0 1500000 4000 7 0 0\n\
    1200000 2400000 102 1900000 3 5 0 0 1800000 6000 8 0 0\noutput 11\n0 3600000 7 4000\n\
    0 3600000 8 6000\noutput 12\n1200000 1800000 1\n1800000 2400000 1\n";

// A desk over the input, whose pulls go by the cuts; if a call is named, it fails after so many bytes.
fn desk(
    alloc: Global,
    input: &[u8],
    cuts: &[usize],
    failing: Option<(u64, usize)>,
) -> Result<MemDesk, Fail> {
    let mut fails = Vec::new(alloc);
    if let Some(call) = failing {
        fails.push(call)?;
    }
    Ok(MemDesk::new(alloc, input.to_vec(alloc)?, cuts.to_vec(alloc)?, fails).map_err(|_| "memory")?)
}

// The words of a text, parted by spaces.
fn words_of(alloc: Global, text: &str) -> Result<Vec<String>, Fail> {
    let mut words = Vec::new(alloc);
    for word in text.split_whitespace() {
        words.push(String::from_str(alloc, word)?)?;
    }
    Ok(words)
}

// What `astream` reports with these words, parted by spaces.
fn called<R: Threads + Sync>(
    rt: &R,
    alloc: Global,
    desk: &mut MemDesk,
    text: &str,
) -> Result<Report, Fail> {
    let words = words_of(alloc, text)?;
    Ok(astream(rt, alloc, &words, desk, &FreeGate))
}

// What was said, by the log of calls.
fn said(alloc: Global, log: &[Entry]) -> Result<Vec<u8>, Fail> {
    let mut all = Vec::new(alloc);
    for entry in log {
        if let Entry::Said(bytes) | Entry::SayFailed(bytes) = entry {
            all.extend_from_slice(bytes.as_slice())?;
        }
    }
    Ok(all)
}

// What output n holds, by the log.
fn held(alloc: Global, log: &[Entry], n: u64) -> Result<Vec<u8>, Fail> {
    let mut all = b"not begun".to_vec(alloc)?;
    for entry in log {
        match entry {
            Entry::Begun(m) if *m == n => all.clear(),
            Entry::Put(m, bytes) | Entry::PutFailed(m, bytes) if *m == n => {
                all.extend_from_slice(bytes.as_slice())?;
            }
            _ => {}
        }
    }
    Ok(all)
}

// The desk's log has these answers, and this in output 1.
fn has(alloc: Global, desk: &MemDesk, answers: &[u8], output: &[u8]) -> Result<bool, Fail> {
    let log = desk.log();
    Ok(said(alloc, log)?.as_slice() == answers && held(alloc, log, 1)?.as_slice() == output)
}

// These words over the input end well, say this, and leave this in output 1.
fn answers<R: Threads + Sync + Abort>(
    rt: &R,
    alloc: Global,
    words: &str,
    input: &[u8],
    wanted: &[u8],
    output: &[u8],
) -> Result<(), Fail> {
    let mut desk = desk(alloc, input, &[], None)?;
    let report = called(rt, alloc, &mut desk, words)?;
    assert!(rt; report.status == Status::Done);
    assert!(rt; has(alloc, &desk, wanted, output)?);
    Ok(())
}

#[test]
fn inputs_are_answered_by_the_rule(rt: HostRuntime) -> Result<(), Fail> {
    let alloc = rt.alloc();
    let mut long = [b'x'; 4097].to_vec(alloc)?;
    long.extend_from_slice(b"\n\xc3\xa9\n\nmark a 1")?;
    let malformed = b"1 long\n2 form\n3 form\ndone 4\n";
    let three = b"1 created 1 at 0\n3 created 2 at 2\n6 created 3 at 3\ndone 8\n";
    let rows_of_three = b"1 7 1 0 0 0\n2 7 2 0 0 0\n2 7 3 0 0 0\n3 7 4 0 0 -5\n";
    let after = b"1 created 1 at 0\n3 created 2 at 6\ndone 5\n";
    let refused = b"1 created 1 at 0\n3 late\n5 back\n7 ended\n9 ended\ndone 9\n";
    let order =
        b"1 syntax 2\n2 twin\n3 window\n4 unknown\n5 syntax 1\n6 syntax 7\n7 stranger\n8 stranger\n\
        10 ended\n12 back\ndone 12\n";
    let deleted = b"1 created 1 at 0\n5 deleted 1 at 10\ndone 8\n";
    answers(&rt, alloc, "run", &long, malformed, b"not begun")?;
    answers(&rt, alloc, "run", THREE, three, rows_of_three)?;
    answers(
        &rt,
        alloc,
        "run",
        AFTER,
        after,
        b"5 1 0 0 0 0\n5 2 0 0 0 0\n",
    )?;
    answers(&rt, alloc, "run", REFUSED, refused, b"10 1 0 0 0 0\n")?;
    answers(&rt, alloc, "run --streams 2", ORDER, order, b"not begun")?;
    answers(
        &rt,
        alloc,
        "run",
        DELETED,
        deleted,
        b"5 1 9 0 0 0\n7 1 5 0 0 0\n",
    )
}

// One query over windows, with its creation and what else is answered, and what this leaves in output 1.
fn leaves<R: Threads + Sync + Abort>(
    rt: &R,
    alloc: Global,
    input: &[u8],
    said: &[u8],
    output: &[u8],
) -> Result<(), Fail> {
    let mut wanted = b"1 created 1 at 0\n".to_vec(alloc)?;
    wanted.extend_from_slice(said)?;
    answers(rt, alloc, "run --slots 1", input, &wanted, output)
}

#[test]
fn windows_have_their_rows(rt: HostRuntime) -> Result<(), Fail> {
    let alloc = rt.alloc();
    leaves(
        &rt,
        alloc,
        HOLDERS,
        b"3 deleted 1 at 11\n4 created 2 at 11\ndone 6\n",
        b"0 100 1\n",
    )?;
    leaves(
        &rt,
        alloc,
        SLIDING,
        b"done 4\n",
        b"0 10 1 3\n5 15 1 7\n10 20 1 4\n",
    )?;
    leaves(&rt, alloc, LATE, b"3 late\ndone 4\n", b"0 100 2\n")?;
    leaves(
        &rt,
        alloc,
        CUT,
        b"4 deleted 1 at 101\ndone 6\n",
        b"0 1000 1\n",
    )?;
    leaves(&rt, alloc, EDGE, b"done 5\n", b"0 10 1\n10 20 1\n")?;
    leaves(&rt, alloc, AT_ONCE, b"done 3\n", b"0 1 1\n")?;
    leaves(
        &rt,
        alloc,
        LAST,
        b"3 deleted 1 at 4611686018427387904\ndone 3\n",
        b"4611686018427387900 4611686018427387910 1\n",
    )?;
    leaves(
        &rt,
        alloc,
        WIDE,
        b"done 4\n",
        b"0 10 5 18446744073709551614\n",
    )
}

#[test]
fn a_window_has_its_second_holder_too(rt: HostRuntime) -> Result<(), Fail> {
    let alloc = rt.alloc();
    let mut desk = desk(alloc, HOLDERS, &[], None)?;
    called(&rt, alloc, &mut desk, "run --slots 1")?;
    assert!(rt; held(alloc, desk.log(), 2)?.as_slice() == b"0 100 5\n".as_slice());
    Ok(())
}

#[test]
fn a_slot_has_one_query_after_another(rt: HostRuntime) -> Result<(), Fail> {
    let alloc = rt.alloc();
    let full = b"1 created 1 at 0\n2 full\n3 deleted 1 at 0\n4 created 2 at 0\ndone 4\n";
    let reused = b"1 created 1 at 0\n2 deleted 1 at 0\n3 created 2 at 0\ndone 5\n";
    answers(&rt, alloc, "run --slots 1", FULL, full, b"")?;
    answers(&rt, alloc, "run --slots 1", REUSED, reused, b"")?;
    let mut desk = desk(alloc, REUSED, &[], None)?;
    called(&rt, alloc, &mut desk, "run --slots 1")?;
    assert!(rt; held(alloc, desk.log(), 2)?.as_slice() == b"0 1 1 0 0 0\n".as_slice());
    Ok(())
}

// Appends a line of this word and number.
fn push_line(out: &mut Vec<u8>, word: &[u8], n: u64) -> Result<(), Fail> {
    out.extend_from_slice(word)?;
    append_decimal(n, out)?;
    Ok(out.push(b'\n')?)
}

// What outputs 1 to 12 hold, if they were begun, each after a line with its number.
fn all_held(alloc: Global, log: &[Entry]) -> Result<Vec<u8>, Fail> {
    let mut all = Vec::new(alloc);
    for n in 1..13 {
        let rows = held(alloc, log, n)?;
        if rows.as_slice() != b"not begun".as_slice() {
            push_line(&mut all, b"output ", n)?;
            all.extend_from_slice(&rows)?;
        }
    }
    Ok(all)
}

// These words over the desk say this, and leave this in its outputs.
fn fills<R: Threads + Sync + Abort>(
    rt: &R,
    alloc: Global,
    words: &str,
    desk: &mut MemDesk,
    wanted: &[u8],
    outputs: &[u8],
) -> Result<(), Fail> {
    called(rt, alloc, desk, words)?;
    assert!(rt; said(alloc, desk.log())?.as_slice() == wanted);
    assert!(rt; all_held(alloc, desk.log())?.as_slice() == outputs);
    Ok(())
}

#[test]
fn an_hour_fills_twelve_outputs(rt: HostRuntime) -> Result<(), Fail> {
    let alloc = rt.alloc();
    let mut desk = desk(alloc, CLICKS, &[], None)?;
    fills(&rt, alloc, "run", &mut desk, CLICK_ANSWERS, CLICK_OUTPUTS)
}

// A run over the two joins, whose first pull ends with the first watermark and whose next call may be made to fail: what it
// says after its answers, and what its outputs hold.
fn joins_fill<R: Threads + Sync + Abort>(
    rt: &R,
    alloc: Global,
    failing: Option<(u64, usize)>,
    last: &[u8],
    outputs: &[u8],
) -> Result<(), Fail> {
    let mut wanted = b"1 created 1 at 0\n3 deleted 1 at 11\n4 created 2 at 11\n".to_vec(alloc)?;
    wanted.extend_from_slice(last)?;
    let mut desk = desk(alloc, TWO_JOINS, &[149], failing)?;
    fills(rt, alloc, "run --slots 1", &mut desk, &wanted, outputs)
}

#[test]
fn the_joins_of_a_slot_wait_for_both_streams(rt: HostRuntime) -> Result<(), Fail> {
    let alloc = rt.alloc();
    let both = b"output 1\n0 100 7 10 0 0 0 0 5 0 0 0 0\noutput 2\n0 100 7 20 0 0 0 0 30 0 0 0 0\n";
    joins_fill(&rt, alloc, Some((7, 0)), b"", b"output 1\noutput 2\n")?;
    joins_fill(&rt, alloc, None, b"done 9\n", both)
}

#[test]
fn pairs_have_their_rows(rt: HostRuntime) -> Result<(), Fail> {
    let alloc = rt.alloc();
    let equal = b"0 10 7 1 0 0 0 0 2 0 0 0 0\n0 10 7 1 0 0 0 0 2 0 0 0 0\n\
        0 10 7 1 0 0 0 0 2 0 0 0 0\n0 10 7 1 0 0 0 0 2 0 0 0 0\n";
    let crossed = b"0 10 7 1 3 0 0 0 8 5 0 0 0\n0 10 7 1 3 0 0 0 8 5 0 0 0\n\
        0 10 7 1 3 0 0 0 8 9 0 0 0\n0 10 7 1 3 0 0 0 8 9 0 0 0\n";
    leaves(&rt, alloc, EQUAL, b"done 5\n", equal)?;
    leaves(&rt, alloc, CROSSED, b"done 5\n", crossed)
}

// All slots are taken, one creation is refused, query 40 is deleted, and a last query has its slot and its record.
fn reuses_one_of<R: Threads + Sync + Abort>(
    rt: &R,
    alloc: Global,
    words: &str,
    slots: u16,
) -> Result<(), Fail> {
    let slots = u64::from(slots);
    let mut input = Vec::new(alloc);
    for _ in 0..slots + 1 {
        input.extend_from_slice(b"create select from a\n")?;
    }
    push_line(&mut input, b"delete ", 40)?;
    input.extend_from_slice(b"create select from a\nrec a 3 1 0 0 0 0\nmark a 4\n")?;
    let mut last = Vec::new(alloc);
    append_decimal(slots + 3, &mut last)?;
    last.extend_from_slice(b" created ")?;
    append_decimal(slots + 1, &mut last)?;
    last.extend_from_slice(b" at 0\n")?;
    push_line(&mut last, b"done ", slots + 5)?;
    let mut desk = desk(alloc, &input, &[], None)?;
    called(rt, alloc, &mut desk, words)?;
    assert!(rt; said(alloc, desk.log())?.ends_with(&last));
    assert!(rt; held(alloc, desk.log(), 40)?.is_empty());
    assert!(rt; held(alloc, desk.log(), slots + 1)?.as_slice() == b"3 1 0 0 0 0\n".as_slice());
    Ok(())
}

#[test]
fn a_slot_of_many_is_used_again(rt: HostRuntime) -> Result<(), Fail> {
    reuses_one_of(&rt, rt.alloc(), "run", 64)?;
    reuses_one_of(&rt, rt.alloc(), "run --slots 512", 512)
}

// These words are no call, and nothing is touched.
fn is_usage<R: Threads + Sync + Abort>(rt: &R, alloc: Global, words: &str) -> Result<(), Fail> {
    let mut desk = desk(alloc, PASSED, &[], None)?;
    let report = called(rt, alloc, &mut desk, words)?;
    assert!(rt; report.status == Status::Usage && desk.log().is_empty());
    Ok(())
}

#[test]
fn other_words_touch_nothing(rt: HostRuntime) -> Result<(), Fail> {
    let alloc = rt.alloc();
    is_usage(&rt, alloc, "")?;
    is_usage(&rt, alloc, "run --slots 0")?;
    is_usage(&rt, alloc, "run --slots 4 --slots 4")?;
    is_usage(&rt, alloc, "run --lane=1")?;
    is_usage(&rt, alloc, "run --max-bytes 1099511627777")?;
    is_usage(&rt, alloc, "run --max-bytes")?;
    is_usage(&rt, alloc, "soak --lines 5")?;
    is_usage(&rt, alloc, "generate --number 1 --lines 10000001")
}

#[test]
fn texts_are_explained(rt: HostRuntime) -> Result<(), Fail> {
    let alloc = rt.alloc();
    let select = "explain select from a where v1 < 30000 and key = 4";
    let canonical = b"select from a where key = 4 and v1 <= 29999\n";
    answers(&rt, alloc, select, b"", canonical, b"not begun")?;
    answers(
        &rt,
        alloc,
        "explain join d d tumble 5",
        b"",
        b"twin\n",
        b"not begun",
    )
}

// What is said of the first `k` bytes of `PASSED`, and what output 1 holds then.
fn cut_at(k: usize) -> (&'static [u8], &'static [u8]) {
    match k {
        0 => (b"done 0\n", b"not begun"),
        1..=5 | 7 | 14 | 19 => (b"1 form\ndone 1\n", b"not begun"),
        6 | 8..=12 => (b"1 syntax 1\ndone 1\n", b"not begun"),
        13 | 15..=17 => (b"1 syntax 2\ndone 1\n", b"not begun"),
        18 => (b"1 syntax 3\ndone 1\n", b"not begun"),
        20 | 21 => (b"1 created 1 at 0\ndone 1\n", b""),
        22..=38 => (b"1 created 1 at 0\n2 form\ndone 2\n", b""),
        39 | 40 => (b"1 created 1 at 0\ndone 2\n", b"5 1 10 0 0 0\n"),
        41..=47 => (b"1 created 1 at 0\n3 form\ndone 3\n", b"5 1 10 0 0 0\n"),
        _ => (b"1 created 1 at 0\ndone 3\n", b"5 1 10 0 0 0\n"),
    }
}

#[test]
fn the_input_may_end_anywhere(rt: HostRuntime) -> Result<(), Fail> {
    for k in 0..50 {
        let (wanted, output) = cut_at(k);
        answers(&rt, rt.alloc(), "run", &PASSED[..k], wanted, output)?;
    }
    Ok(())
}

// Of a run over `PASSED`, a line a pull, the call of this number fails: how many calls there are, the status, the lines,
// what is said, and what output 1 holds.
fn fails_at<R: Threads + Sync + Abort>(
    rt: &R,
    alloc: Global,
    call: u64,
    calls: usize,
    status: Status,
    lines: u64,
    answers: &[u8],
    output: &[u8],
) -> Result<(), Fail> {
    let mut desk = desk(alloc, PASSED, &[21, 19], Some((call, 0)))?;
    let report = called(rt, alloc, &mut desk, "run")?;
    assert!(rt; report.status == status && report.lines == lines);
    assert!(rt; desk.log().len() == calls);
    assert!(rt; has(alloc, &desk, answers, output)?);
    Ok(())
}

#[test]
fn each_call_may_fail(rt: HostRuntime) -> Result<(), Fail> {
    let alloc = rt.alloc();
    let created = b"1 created 1 at 0\n";
    let broken = b"1 created 1 at 0\nbroken 1\ndone 3\n";
    let row = b"5 1 10 0 0 0\n";
    fails_at(&rt, alloc, 1, 1, Status::ReadFault, 0, b"", b"not begun")?;
    fails_at(
        &rt,
        alloc,
        2,
        7,
        Status::OutputBroken,
        3,
        broken,
        b"not begun",
    )?;
    fails_at(&rt, alloc, 3, 3, Status::AnswerFault, 1, b"", b"")?;
    fails_at(&rt, alloc, 4, 4, Status::ReadFault, 1, created, b"")?;
    fails_at(&rt, alloc, 5, 5, Status::ReadFault, 2, created, b"")?;
    fails_at(&rt, alloc, 6, 8, Status::OutputBroken, 3, broken, b"")?;
    fails_at(&rt, alloc, 7, 7, Status::ReadFault, 3, created, row)?;
    fails_at(&rt, alloc, 8, 8, Status::AnswerFault, 3, created, row)
}

// Of a run over `TWO`, all in one pull, this call fails after so many bytes: the status, the lines, the broken outputs,
// what is said, and what outputs 1 and 2 hold.
fn two_fail_at<R: Threads + Sync + Abort>(
    rt: &R,
    alloc: Global,
    failing: (u64, usize),
    status: Status,
    lines: u64,
    broken: &[u64],
    answers: &[u8],
    one: &[u8],
    two: &[u8],
) -> Result<(), Fail> {
    let mut desk = desk(alloc, TWO, &[], Some(failing))?;
    let report = called(rt, alloc, &mut desk, "run")?;
    assert!(rt; report.status == status && report.lines == lines);
    assert!(rt; report.broken.as_slice() == broken);
    assert!(rt; has(alloc, &desk, answers, one)?);
    assert!(rt; held(alloc, desk.log(), 2)?.as_slice() == two);
    Ok(())
}

// A begin or a put fails: the run over `TWO` goes on to its end, output n is broken, and outputs 1 and 2 hold this.
fn two_break_at<R: Threads + Sync + Abort>(
    rt: &R,
    alloc: Global,
    failing: (u64, usize),
    n: u64,
    one: &[u8],
    two: &[u8],
) -> Result<(), Fail> {
    let mut answers = b"1 created 1 at 0\n2 created 2 at 0\n".to_vec(alloc)?;
    push_line(&mut answers, b"broken ", n)?;
    answers.extend_from_slice(b"done 4\n")?;
    two_fail_at(
        rt,
        alloc,
        failing,
        Status::OutputBroken,
        4,
        &[n],
        &answers,
        one,
        two,
    )
}

#[test]
fn an_output_breaks_alone(rt: HostRuntime) -> Result<(), Fail> {
    let alloc = rt.alloc();
    let row = b"5 1 10 0 0 0\n";
    two_break_at(&rt, alloc, (2, 0), 1, b"not begun", row)?;
    two_break_at(&rt, alloc, (4, 0), 2, row, b"not begun")?;
    two_break_at(&rt, alloc, (6, 0), 1, b"", row)?;
    two_break_at(&rt, alloc, (6, 3), 1, b"5 1", row)?;
    two_break_at(&rt, alloc, (7, 0), 2, row, b"")
}

// A pull or a say fails: the run over `TWO` ends there, and no output is broken.
fn two_end_at<R: Threads + Sync + Abort>(
    rt: &R,
    alloc: Global,
    call: u64,
    status: Status,
    lines: u64,
    answers: &[u8],
    one: &[u8],
    two: &[u8],
) -> Result<(), Fail> {
    two_fail_at(rt, alloc, (call, 0), status, lines, &[], answers, one, two)
}

#[test]
fn a_pull_and_a_say_end_the_run_of_two(rt: HostRuntime) -> Result<(), Fail> {
    let alloc = rt.alloc();
    let first = b"1 created 1 at 0\n";
    let both = b"1 created 1 at 0\n2 created 2 at 0\n";
    let row = b"5 1 10 0 0 0\n";
    let none = b"not begun";
    two_end_at(&rt, alloc, 1, Status::ReadFault, 0, b"", none, none)?;
    two_end_at(&rt, alloc, 3, Status::AnswerFault, 1, b"", b"", none)?;
    two_end_at(&rt, alloc, 5, Status::AnswerFault, 2, first, b"", b"")?;
    two_end_at(&rt, alloc, 8, Status::ReadFault, 4, both, row, row)?;
    two_end_at(&rt, alloc, 9, Status::AnswerFault, 4, both, row, row)
}

#[test]
fn an_unfinished_line_is_not_taken(rt: HostRuntime) -> Result<(), Fail> {
    let alloc = rt.alloc();
    let mut desk = desk(alloc, UNFINISHED, &[], Some((5, 0)))?;
    let report = called(&rt, alloc, &mut desk, "run")?;
    assert!(rt; report.status == Status::ReadFault && report.lines == 3);
    assert!(rt; has(alloc, &desk, b"1 created 1 at 0\n", b"5 1 10 0 0 0\n")?);
    Ok(())
}

fn entry_bytes(alloc: Global, text: &[u8]) -> Result<Bytes, Fail> {
    Ok(Bytes::from_vec(text.to_vec(alloc)?))
}

// A run over the input, whose pulls go by the cuts, makes these calls.
fn makes<R: Threads + Sync + Abort>(
    rt: &R,
    alloc: Global,
    input: &[u8],
    cuts: &[usize],
    log: &[Entry],
) -> Result<(), Fail> {
    let mut desk = desk(alloc, input, cuts, None)?;
    called(rt, alloc, &mut desk, "run")?;
    assert!(rt; desk.log() == log);
    Ok(())
}

#[test]
fn each_line_is_done_before_the_next_pull(rt: HostRuntime) -> Result<(), Fail> {
    let alloc = rt.alloc();
    let log = [
        Entry::Pulled(entry_bytes(alloc, b"create select from a\n")?),
        Entry::Begun(1),
        Entry::Said(entry_bytes(alloc, b"1 created 1 at 0\n")?),
        Entry::Pulled(entry_bytes(alloc, b"rec a 5 1 10 0 0 0\n")?),
        Entry::Pulled(entry_bytes(alloc, b"mark a 6\n")?),
        Entry::Put(1, entry_bytes(alloc, b"5 1 10 0 0 0\n")?),
        Entry::Pulled(entry_bytes(alloc, b"")?),
        Entry::Said(entry_bytes(alloc, b"done 3\n")?),
    ];
    makes(&rt, alloc, PASSED, &[21, 19], &log)
}

#[test]
fn a_row_at_the_mark_waits_for_the_end(rt: HostRuntime) -> Result<(), Fail> {
    let alloc = rt.alloc();
    let input = b"create select from a\nrec a 5 1 10 0 0 0\nmark a 5\n";
    let log = [
        Entry::Pulled(entry_bytes(alloc, input)?),
        Entry::Begun(1),
        Entry::Said(entry_bytes(alloc, b"1 created 1 at 0\n")?),
        Entry::Pulled(entry_bytes(alloc, b"")?),
        Entry::Put(1, entry_bytes(alloc, b"5 1 10 0 0 0\n")?),
        Entry::Said(entry_bytes(alloc, b"done 3\n")?),
    ];
    makes(&rt, alloc, input, &[], &log)
}

// With these words the input is longer than the limit before its first line ends: nothing is said.
fn is_too_long<R: Threads + Sync + Abort>(
    rt: &R,
    alloc: Global,
    words: &str,
    input: &[u8],
) -> Result<(), Fail> {
    let mut desk = desk(alloc, input, &[], None)?;
    let report = called(rt, alloc, &mut desk, words)?;
    assert!(rt; report.status == Status::TooLong && report.lines == 0);
    assert!(rt; has(alloc, &desk, b"", b"not begun")?);
    Ok(())
}

#[test]
fn the_limit_is_exact(rt: HostRuntime) -> Result<(), Fail> {
    let alloc = rt.alloc();
    let ten = "run --max-bytes 10";
    let no = "run --max-bytes 0";
    is_too_long(&rt, alloc, ten, b"mark a 123\n")?;
    answers(&rt, alloc, ten, b"mark a 123", b"done 1\n", b"not begun")?;
    is_too_long(&rt, alloc, no, b"m")?;
    answers(&rt, alloc, no, b"", b"done 0\n", b"not begun")
}

// What a rehearsal with these words, parted by spaces, reports for `PASSED`.
fn rehearsed<R: Threads + Sync>(rt: &R, alloc: Global, text: &str) -> Result<Report, Fail> {
    let words = words_of(alloc, text)?;
    Ok(rehearse(rt, alloc, &words, PASSED.to_vec(alloc)?, &FreeGate)?)
}

#[test]
fn a_rehearsal_tells_how_a_run_ends(rt: HostRuntime) -> Result<(), Fail> {
    let alloc = rt.alloc();
    let report = rehearsed(&rt, alloc, "run")?;
    assert!(rt; report.status == Status::Done && report.lines == 3);
    assert!(rt; report.broken.as_slice().is_empty());
    let report = rehearsed(&rt, alloc, "run --max-bytes 10")?;
    assert!(rt; report.status == Status::TooLong);
    Ok(())
}
