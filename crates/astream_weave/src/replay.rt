ghost use Rattle.std.specs.Prelude.{◌≡◌, IfOk, length};

use as_outside::{Entry, FreeGate, MemDesk, MemSource, Status};
use astream_top::astream;
use std::alloc::Global;
use std::test::Fail;
use weave_top::weave;

// A source of this text.
fn source(alloc: Global, text: &[u8]) -> Result<MemSource, Fail> {
    Ok(MemSource::new(text.to_vec(alloc)?, Vec::new(alloc), Vec::new(alloc)).map_err(|_| "memory")?)
}

// Two records of stream a, one of stream b, and a creation.
fn sources(alloc: Global) -> Result<Vec<MemSource>, Fail>
    ensures { IfOk result (λ sources. length sources.items ≡ 5) }
{
    let mut sources = Vec::new(alloc);
    sources.push(source(alloc, b"rec a 1 7 1 0 0 0\nrec a 2 7 2 0 0 0\n")?)?;
    sources.push(source(alloc, b"rec b 3 7 3 0 0 0\n")?)?;
    sources.push(source(alloc, b"")?)?;
    sources.push(source(alloc, b"")?)?;
    sources.push(source(alloc, b"create select from a\n")?)?;
    Ok(sources)
}

// A desk over this input.
fn desk(alloc: Global, input: Vec<u8>) -> Result<MemDesk, Fail> {
    Ok(MemDesk::new(alloc, input, Vec::new(alloc), Vec::new(alloc)).map_err(|_| "memory")?)
}

// What was noted, by the log.
fn journal(alloc: Global, log: &[Entry]) -> Result<Vec<u8>, Fail> {
    let mut journal = Vec::new(alloc);
    for entry in log {
        if let Entry::Noted(bytes) = entry {
            journal.extend_from_slice(bytes.as_slice())?;
        }
    }
    Ok(journal)
}

// What was said, and put on output 1, in the order of the log.
fn told(alloc: Global, log: &[Entry]) -> Result<Vec<u8>, Fail> {
    let mut told = Vec::new(alloc);
    for entry in log {
        if let Entry::Said(bytes) | Entry::Put(1, bytes) = entry {
            told.extend_from_slice(bytes.as_slice())?;
        }
    }
    Ok(told)
}

#[test]
fn a_journal_is_replayed(rt: HostRuntime) -> Result<(), Fail> {
    let alloc = rt.alloc();
    let mut woven = desk(alloc, Vec::new(alloc))?;
    let report = weave(&rt, alloc, &[], sources(alloc)?, &mut woven, &FreeGate);
    assert!(rt; report.status == Status::Done);
    assert!(rt; report.lines == 4);
    let mut run = desk(alloc, journal(alloc, woven.log())?)?;
    let mut words = Vec::new(alloc);
    words.push(String::from_str(alloc, "run")?)?;
    let again = astream(&rt, alloc, &words, &mut run, &FreeGate);
    assert!(rt; again.status == Status::Done);
    assert!(rt; again.lines == 4);
    assert!(rt; told(alloc, run.log())?.as_slice() == told(alloc, woven.log())?.as_slice());
    Ok(())
}
