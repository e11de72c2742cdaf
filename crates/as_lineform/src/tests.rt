use super::*;
use as_base::{Answer, Given, Item, StreamId, Word};
use std::alloc::Global;
use std::test::Fail;

// Lines in none of the forms, each near one of them.
const NEAR_MISSES: &[u8] = b"\
    \n\
    \x20\n\
    ?\n\
    rec\n\
    rec \n\
    rec a\n\
    rec a 1 2 3 4 5\n\
    rec a 1 2 3 4 5 6 7\n\
    rec a 01 2 3 4 5 6\n\
    rec a 1 02 3 4 5 6\n\
    rec a 1 2 3 4 5 06\n\
    rec a -0 2 3 4 5 6\n\
    rec a 1 -0 3 4 5 6\n\
    rec a 1 2 3 4 5 -0\n\
    rec a 1 +2 3 4 5 6\n\
    rec a +1 2 3 4 5 6\n\
    rec a -1 2 3 4 5 6\n\
    rec a 1 -02 3 4 5 6\n\
    rec a 1 --2 3 4 5 6\n\
    rec a 1 - 3 4 5 6\n\
    rec a  1 2 3 4 5 6\n\
    rec a 1 2 3  4 5 6\n\
    rec  a 1 2 3 4 5 6\n\
    rec a 1 2 3 4 5 6 \n\
    \x20rec a 1 2 3 4 5 6\n\
    rec\ta 1 2 3 4 5 6\n\
    rec a 1 2 3 4 5\t6\n\
    rec a 1 2 3 4 5 6\r\n\
    rec a 4611686018427387904 2 3 4 5 6\n\
    rec a 1 9223372036854775808 0 0 0 0\n\
    rec a 1 -9223372036854775809 0 0 0 0\n\
    rec a 1 0 0 0 0 9223372036854775808\n\
    rec a 1 0 0 0 0 -9223372036854775809\n\
    rec a 1 18446744073709551617 2 3 4 5\n\
    rec a 18446744073709551617 2 3 4 5 6\n\
    rec e 1 2 3 4 5 6\n\
    rec aa 1 2 3 4 5 6\n\
    Rec a 1 2 3 4 5 6\n\
    rec A 1 2 3 4 5 6\n\
    rec a 1 2 3 4 5 x\n\
    rec a 1 2 3 4 5 6x\n\
    rec a 1 2 3 4 5 \x7f\n\
    rec a 1 2 3 4 5 \xc3\n\
    record a 1 2 3 4 5 6\n\
    mark\n\
    mark a\n\
    mark a \n\
    mark 1\n\
    mark a 1 2\n\
    mark a 1 \n\
    mark a 00\n\
    mark a 06\n\
    mark a -1\n\
    mark a -0\n\
    mark a +1\n\
    mark a 1.0\n\
    mark a 4611686018427387904\n\
    mark e 1\n\
    mark a\r1\n\
    MARK a 1\n\
    end\n\
    end \n\
    end a \n\
    end a b\n\
    end a 1\n\
    end e\n\
    End a\n\
    \x20end a\n\
    end  a\n\
    delete\n\
    delete \n\
    delete -1\n\
    delete -0\n\
    delete +1\n\
    delete 01\n\
    delete 1 2\n\
    delete  1\n\
    delete 1 \n\
    delete a\n\
    delete 9223372036854775808\n\
    delete 18446744073709551617\n\
    Delete 1\n\
    create \n\
    \x20create\n\
    Create\n\
    creates\n\
    create  select from a\n\
    create select from a \n\
    create select  from a\n\
    create select\tfrom a\n\
    create select from a\r\n\
    create \x7f\n\
    create \xc3\xa9\n\
    create a\x1f\n\
    create\tselect\n\
    select from a\n\
";

// Lines in a form.
const SPELLED: &[u8] = b"\
    rec a 0 0 0 0 0 0\n\
    rec b 4611686018427387903 -9223372036854775808 9223372036854775807 0 -1 1\n\
    rec c 10 -10 9223372036854775807 -9223372036854775808 20 -5\n\
    rec d 1 2 3 4 5 6\n\
    mark a 0\n\
    mark b 4611686018427387903\n\
    mark c 10\n\
    mark d 9\n\
    end a\n\
    end b\n\
    end c\n\
    end d\n\
    create\n\
    create select from a\n\
    create ! ~\n\
    delete 9223372036854775807\n\
";

// The items of the whole lines, written as lines again.
fn rewritten(alloc: Global, bytes: &[u8]) -> Result<Vec<u8>, Fail> {
    let mut lines = Lines::new(alloc)?;
    let mut out = Vec::new(alloc);
    for byte in bytes {
        if let Step::Line(item) = lines.feed(*byte)? {
            item_text(&item, &mut out)?;
            out.push(b'\n')?;
        }
    }
    Ok(out)
}

// Three lines, of which the last lacks its line feed.
const THREE: &[u8] = b"create a\nrec b 123456789 -20 3 0 9 1\nmark c 5";

// The item, written as a line.
fn write(item: &Item, out: &mut Vec<u8>) -> Result<(), Fail> {
    item_text(item, out)?;
    out.push(b'\n')?;
    Ok(())
}

// Takes what the one call or the other takes of these bytes, and gives those that are left.
fn take_piece<'a>(lines: &mut Lines, bytes: &'a [u8], out: &mut Vec<u8>) -> Result<&'a [u8], Fail> {
    if let Some((used, given)) = lines.take_record(bytes) {
        write(&Item::Rec(given), out)?;
        return Ok(&bytes[used..]);
    }
    let (used, item) = lines.take(bytes)?;
    if let Some(item) = item {
        write(&item, out)?;
    }
    Ok(&bytes[used..])
}

// Takes all bytes of a pull.
fn take_pull(lines: &mut Lines, pull: &[u8], out: &mut Vec<u8>) -> Result<(), Fail> {
    let mut left = pull;
    for _ in pull {
        left = take_piece(lines, left, out)?;
    }
    Ok(())
}

// Whether the three pulls have the three lines.
fn are_three(alloc: Global, first: &[u8], second: &[u8], third: &[u8]) -> Result<bool, Fail> {
    let mut lines = Lines::new(alloc)?;
    let mut out = Vec::new(alloc);
    take_pull(&mut lines, first, &mut out)?;
    take_pull(&mut lines, second, &mut out)?;
    take_pull(&mut lines, third, &mut out)?;
    if let Some(item) = lines.finish()? {
        item_text(&item, &mut out)?;
    }
    Ok(out.as_slice() == THREE)
}

#[test]
fn pulls_may_be_cut_anywhere(rt: HostRuntime) -> Result<(), Fail> {
    for end in 0..=THREE.len() {
        let (front, third) = THREE.split_at(end);
        for start in 0..=front.len() {
            let (first, second) = front.split_at(start);
            assert!(rt; are_three(rt.alloc(), first, second, third)?);
        }
    }
    Ok(())
}

// The record's numbers have 8, 16, 17, 19 and 19 digits, and 1.
const LONG_NUMBERS: &[u8] = b"\
    rec a 99999999 1234567890123456 -12345678901234567 9223372036854775807 -9223372036854775808 0\n\
";

#[test]
fn a_record_is_read_in_place(rt: HostRuntime) -> Result<(), Fail> {
    let lines = Lines::new(rt.alloc())?;
    let mut out = Vec::new(rt.alloc());
    if let Some((used, given)) = lines.take_record(LONG_NUMBERS) {
        assert_eq!(rt; used, LONG_NUMBERS.len());
        write(&Item::Rec(given), &mut out)?;
    }
    assert!(rt; out.as_slice() == LONG_NUMBERS);
    Ok(())
}

#[test]
fn near_misses_are_in_no_form(rt: HostRuntime) -> Result<(), Fail> {
    let out = rewritten(rt.alloc(), NEAR_MISSES)?;
    assert_eq!(rt; out.len(), 192);
    assert!(rt; out.iter().all(|byte| *byte == b'?' || *byte == b'\n'));
    Ok(())
}

#[test]
fn lines_are_written_as_they_were_read(rt: HostRuntime) -> Result<(), Fail> {
    assert_eq!(rt; rewritten(rt.alloc(), SPELLED)?.as_slice(), SPELLED);
    Ok(())
}

#[test]
fn a_line_has_at_most_4096_bytes(rt: HostRuntime) -> Result<(), Fail> {
    let mut line = b"create ".to_vec(rt.alloc())?;
    line.resize(4096, b'x')?;
    line.push(b'\n')?;
    assert_eq!(rt;
        rewritten(rt.alloc(), line.as_slice())?.as_slice(),
        line.as_slice()
    );
    line.insert(7, b'x')?;
    let long = rewritten(rt.alloc(), line.as_slice())?;
    assert_eq!(rt; long.len(), 4098);
    assert_eq!(rt; long[0], b'-');
    Ok(())
}

#[test]
fn the_last_line_may_lack_its_line_feed(rt: HostRuntime) -> Result<(), Fail> {
    let mut lines = Lines::new(rt.alloc())?;
    for byte in b"mark b 1" {
        assert!(rt; matches!(lines.feed(*byte)?, Step::More));
    }
    assert!(rt; matches!(lines.finish()?, Some(Item::Mark(StreamId::B, 1))));
    assert!(rt; lines.finish()?.is_none());
    Ok(())
}

#[test]
fn records_have_their_numbers(rt: HostRuntime) -> Result<(), Fail> {
    match item_of(
        rt.alloc(),
        b"rec c 7 -9223372036854775808 9223372036854775807 0 -1 1",
    )? {
        Item::Rec(given) => assert_eq!(rt;
            given,
            Given {
                stream: StreamId::C,
                time: 7,
                key: i64::MIN,
                v: [i64::MAX, 0, -1, 1],
            }
        ),
        _ => panic!(rt; "no record"),
    }
    Ok(())
}

#[test]
fn answers_have_their_texts(rt: HostRuntime) -> Result<(), Fail> {
    let words = [
        Word::Created { n: 2, at: 11 },
        Word::Deleted {
            n: 18_446_744_073_709_551_615,
            at: 0,
        },
        Word::Long,
        Word::Form,
        Word::Stranger,
        Word::Ended,
        Word::Late,
        Word::Back,
        Word::Syntax(4_294_967_295),
        Word::Twin,
        Word::Window,
        Word::Full,
        Word::Unknown,
    ];
    let mut out = Vec::new(rt.alloc());
    let mut line = 3;
    for word in words {
        answer_text(&Answer { line, word }, &mut out)?;
        line = line.wrapping_mul(10);
    }
    let text = b"3 created 2 at 11
30 deleted 18446744073709551615 at 0
300 long
3000 form
30000 stranger
300000 ended
3000000 late
30000000 back
300000000 syntax 4294967295
3000000000 twin
30000000000 window
300000000000 full
3000000000000 unknown
";
    assert_eq!(rt; out.as_slice(), text.as_slice());
    Ok(())
}
