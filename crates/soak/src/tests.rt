use super::*;
use as_base::{Answer, Bytes, Fed, NoMemory, Piece, Pieces, Word};
use std::alloc::Global;
use std::test::Fail;

// What an item brings about that has this answer and these pieces, each of some rows.
fn fed(alloc: Global, word: Option<Word>, rows: &[&[u8]]) -> Result<Fed, NoMemory> {
    let mut pieces = Vec::new(alloc);
    let mut n = 1;
    for bytes in rows {
        let mut own = Vec::new(alloc);
        own.extend_from_slice(bytes)?;
        let bytes = Bytes::from_vec(own);
        pieces.push(Piece { n, bytes })?;
        n = 2;
    }
    Ok(Fed {
        answer: word.map(|word| Answer { line: 1, word }),
        pieces: Pieces::from_vec(pieces),
    })
}

// The tally of an answer of each sort, of none, and of two pieces.
fn counted(alloc: Global) -> Result<Tally, NoMemory> {
    let mut tally = Tally::new();
    tally.count(&fed(alloc, Some(Word::Created { n: 1, at: 0 }), &[])?)?;
    tally.count(&fed(
        alloc,
        Some(Word::Deleted { n: 1, at: 0 }),
        &[b"1 2\n3 4\n", b"5\n"],
    )?)?;
    tally.count(&fed(alloc, None, &[b"7\n"])?)?;
    let refused = Answer {
        line: 4,
        word: Word::Late,
    };
    tally.count_told(&Some(refused))?;
    tally.count_told(&None)?;
    Ok(tally)
}

#[test]
fn what_items_brought_about(rt: HostRuntime) -> Result<(), Fail> {
    let tally = counted(rt.alloc()).map_err(|_| "memory")?;
    assert!(rt; tally.created == 1);
    assert!(rt; tally.deleted == 1);
    assert!(rt; tally.refused == 1);
    assert!(rt; tally.rows == 4);
    assert!(rt; tally.bytes == 12);
    Ok(())
}

#[test]
fn seven_lines(rt: HostRuntime) -> Result<(), Fail> {
    let tally = Tally {
        created: 1,
        deleted: 0,
        refused: 0,
        rows: 1,
        bytes: 21,
    };
    let mut out = Vec::new(rt.alloc());
    append_soaked(6, &tally, &mut out).map_err(|_| "memory")?;
    let wanted = b"lines 6\ncreated 1\ndeleted 0\nrefused 0\nrows 1\nbytes 21\ndone 6\n";
    assert!(rt; out.as_slice() == wanted.as_slice());
    Ok(())
}
