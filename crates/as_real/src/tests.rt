use super::*;
use as_outside::{Failed, Shelf, Source};
use std::fs;
use std::test::Fail;

// A source that a thread of its own may pull from.
fn sent<S: Source + Send + Drop>(source: S) -> S {
    source
}

#[test]
fn a_feed_is_its_file_and_the_journal_its_notes(rt: HostRuntime) -> Result<(), Fail> {
    let mut source = sent(RealSource::new(&rt, rt.alloc(), "feed-1.txt")?);
    let mut buf = [0; 4];
    assert_eq!(rt; source.pull(&mut buf), Err(Failed));
    fs::write(&rt, "feed-1.txt", "end a\n5 1\n")?;
    for part in [b"end ".as_slice(), b"a\n5 ", b"1\n", b""] {
        assert_eq!(rt; source.pull(&mut buf), Ok(part.len()));
        assert!(rt; buf.starts_with(part));
    }
    fs::remove_file(&rt, "feed-1.txt")?;
    fs::write(&rt, "journal.txt", "of an earlier run\n")?;
    let mut shelf = RealShelf::new(&rt, rt.alloc());
    assert_eq!(rt; shelf.note(b"end a\n"), Ok(()));
    assert_eq!(rt; shelf.note(b"5 1\n"), Ok(()));
    let text = fs::read_to_string(&rt, "journal.txt")?;
    fs::remove_file(&rt, "journal.txt")?;
    assert_eq!(rt; text.as_str(), "end a\n5 1\n");
    Ok(())
}
