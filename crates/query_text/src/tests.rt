use super::*;
use as_base::{Col, Group, Kind, StreamId, Text, is_text};
use as_words::parse_below;
use std::alloc::Global;
use std::process::Abort;
use std::test::Fail;

/// Texts, each after the place where it is outside the grammar, or after 0 where it is a query: fronts of whole texts, a
/// wrong word at each kind of place, and queries whatever a plan makes of them.
const TEXTS: &[u8] = b"1:
2:select
3:select from
0:select from a
5:select from a where
6:select from a where key
7:select from a where key <
0:select from a where key < 5
9:select from a where key < 5 and
0:select from a where key < 5 and v1 >= -3
2:sum
3:sum v1
4:sum v1 by
5:sum v1 by key
6:sum v1 by key from
7:sum v1 by key from b
8:sum v1 by key from b slide
9:sum v1 by key from b slide 20
0:sum v1 by key from b slide 20 10
3:count by
0:count by v3 from c tumble 10 where v2 = 0
2:join
3:join a
4:join a b
6:join a b slide 4
0:join a b slide 4 2
8:join a b slide 4 2 left
0:join a b slide 4 2 left v1 = 1
12:join a b slide 4 2 left v1 = 1 right
0:join a b slide 4 2 left v1 = 1 right v4 <= 2
0:sum v4 by all from d tumble 1 where key > 9223372036854775807
0:join c d tumble 7 right key = -9223372036854775808 and v2 < 0
1:sel
1:Select from a
2:select form a
3:select from e
4:select from a b
4:select from a left v1 = 1
4:select from a and v1 = 1
4:select from a tumble 10
5:select from a where v5 = 1
5:select from a where all = 1
5:select from a where and v1 = 1
6:select from a where v1 == 1
7:select from a where v1 = x
7:select from a where v1 = 01
7:select from a where v1 = -0
7:select from a where v1 = 9223372036854775808
7:select from a where v1 = -9223372036854775809
8:select from a where v1 = 1 where v2 = 1
9:select from a where v1 = 1 and and v2 = 1
2:sum key by key from a tumble 10
4:sum v1 by b from a tumble 10
5:sum v1 by key where a tumble 10
7:sum v1 by key from a where v1 = 1
8:sum v1 by key from a tumble -1
8:sum v1 by key from a slide 9223372036854775808 1
9:sum v1 by key from a tumble 10 10
10:sum v1 by key from a slide 20 10 5
2:count v1 by key from a tumble 10
5:count by key from A tumble 10
8:count by key from a tumble 10 left v1 = 1
9:count by key from a slide 1 1 right v1 = 1
2:join ab tumble 10
6:join a b tumble 10 where v1 = 1
6:join a b tumble 10 and v1 = 1
10:join a b tumble 10 left v1 = 1 left v2 = 1
10:join a b tumble 10 right v1 = 1 left v1 = 1
10:join a b tumble 10 right v1 = 1 right v1 = 1
0:join a a tumble 0
0:count by v4 from d slide 0 9223372036854775807
0:join d c tumble 3 left v1 > 1 and v1 < 1 right key <= 0";

// Where the text is outside the grammar; 0 where it is a query.
fn place_in(rt: &impl Abort, alloc: Global, bytes: &[u8]) -> Result<u64, Fail> {
    assert!(rt; is_text(bytes), "{bytes:?}");
    let text = Text::from_vec(bytes.to_vec(alloc)?);
    match read(alloc, &text).err() {
        None => Ok(0),
        Some(TextFault::Syntax(place)) => Ok(u64::from(place)),
        Some(TextFault::NoMemory) => panic!(rt; "no memory"),
    }
}

// The text of the row has the place of the row.
fn check_row(rt: &impl Abort, alloc: Global, row: &[u8]) -> Result<(), Fail> {
    let Some(at) = row.iter().position(|byte| *byte == b':') else {
        panic!(rt; "no place in {row:?}");
    };
    let place = parse_below(&row[..at], 100).ok_or("no number")?;
    assert_eq!(rt; place_in(rt, alloc, &row[at + 1..])?, place, "{row:?}");
    Ok(())
}

#[test]
fn faults_have_their_places(rt: HostRuntime) -> Result<(), Fail> {
    for row in TEXTS.split(|byte| *byte == b'\n') {
        check_row(&rt, rt.alloc(), row)?;
    }
    Ok(())
}

#[test]
fn texts_have_their_trees(rt: HostRuntime) -> Result<(), Fail> {
    let bytes = b"sum v1 by v2 from c slide 20 10 where v3 < -5 and key >= 0".as_slice();
    assert!(rt; is_text(bytes));
    let text = Text::from_vec(bytes.to_vec(rt.alloc())?);
    let ast = read(rt.alloc(), &text)?;
    assert_eq!(rt; ast.kind, Kind::Sum(Col::V1));
    assert_eq!(rt; ast.group, Group::Col(Col::V2));
    assert_eq!(rt; ast.left, StreamId::C);
    assert_eq!(rt; ast.right, None);
    assert_eq!(rt; ast.win, Some((20, 10)));
    let low = Cond {
        field: 3,
        op: Op::Lt,
        value: -5,
    };
    let high = Cond {
        field: 0,
        op: Op::Ge,
        value: 0,
    };
    assert_eq!(rt; ast.left_conds.as_slice(), [low, high].as_slice());
    assert!(rt; ast.right_conds.as_slice().is_empty());
    Ok(())
}

// The longest text: 370 conditions in 4,089 bytes.
#[test]
fn the_longest_text_is_read(rt: HostRuntime) -> Result<(), Fail> {
    let mut bytes = b"select from a where v1 < 50000".to_vec(rt.alloc())?;
    for _ in 1..370 {
        bytes.extend_from_slice(b" and v1 < 5")?;
    }
    assert_eq!(rt; bytes.len(), 4089);
    assert!(rt; is_text(&bytes));
    let ast = read(rt.alloc(), &Text::from_vec(bytes))?;
    assert_eq!(rt; ast.left_conds.as_slice().len(), 370);
    Ok(())
}
