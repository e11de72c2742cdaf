use super::*;
use std::process::Abort;
use std::test::Fail;

// Bytes of their own.
fn bytes<R: Abort>(rt: &R, alloc: Global, text: &[u8]) -> Bytes {
    Bytes::from_vec(text.to_vec(alloc).expect(rt, "memory"))
}

#[test]
fn pulls_go_by_the_cuts(rt: HostRuntime) -> Result<(), Fail> {
    let alloc = rt.alloc();
    let input = b"abcdefghijkl".to_vec(alloc)?;
    let cuts = [3usize, 0, 2].to_vec(alloc)?;
    let mut desk = MemDesk::new(alloc, input, cuts, Vec::new(alloc))?;
    let mut buf = [0; 5];
    for want in [3usize, 5, 2, 2, 0] {
        assert_eq!(rt; desk.pull(&mut buf), Ok(want));
    }
    let log = [
        Entry::Pulled(bytes(&rt, alloc, b"abc")),
        Entry::Pulled(bytes(&rt, alloc, b"defgh")),
        Entry::Pulled(bytes(&rt, alloc, b"ij")),
        Entry::Pulled(bytes(&rt, alloc, b"kl")),
        Entry::Pulled(bytes(&rt, alloc, b"")),
    ];
    assert_eq!(rt; desk.log(), log.as_slice());
    Ok(())
}

// Which calls on the shelf went well.
fn shelf_calls(desk: &mut MemDesk) -> [bool; 6] {
    [
        desk.say(b"1 ok").is_ok(),
        desk.note(b"note").is_ok(),
        desk.begin(6).is_ok(),
        desk.begin(7).is_ok(),
        desk.put(6, b"rows").is_ok(),
        desk.put(6, b"more").is_ok(),
    ]
}

// Which further calls went well.
fn further_calls(desk: &mut MemDesk) -> [bool; 4] {
    let mut buf = [0; 5];
    [
        desk.pull(&mut buf).is_ok(),
        desk.pull(&mut buf).is_ok(),
        desk.say(b"2 ok").is_ok(),
        desk.note(b"").is_ok(),
    ]
}

// The log of all these calls.
fn log_of_calls<R: Abort>(rt: &R, alloc: Global) -> [Entry; 10] {
    [
        Entry::SayFailed(bytes(rt, alloc, b"1 ")),
        Entry::NoteFailed(bytes(rt, alloc, b"note")),
        Entry::Begun(6),
        Entry::BeginFailed(7),
        Entry::PutFailed(6, bytes(rt, alloc, b"row")),
        Entry::Put(6, bytes(rt, alloc, b"more")),
        Entry::PullFailed,
        Entry::Pulled(bytes(rt, alloc, b"a")),
        Entry::Said(bytes(rt, alloc, b"2 ok")),
        Entry::Noted(bytes(rt, alloc, b"")),
    ]
}

#[test]
fn calls_fail_by_the_script(rt: HostRuntime) -> Result<(), Fail> {
    let alloc = rt.alloc();
    let fails = [(1u64, 2usize), (2, 9), (4, 5), (5, 3), (7, 1), (5, 0)].to_vec(alloc)?;
    let cuts = [9usize, 1].to_vec(alloc)?;
    let mut desk = MemDesk::new(alloc, b"ab".to_vec(alloc)?, cuts, fails)?;
    assert_eq!(rt;
        shelf_calls(&mut desk),
        [false, false, true, false, false, true]
    );
    assert_eq!(rt; further_calls(&mut desk), [false, true, true, true]);
    assert_eq!(rt; desk.log(), log_of_calls(&rt, alloc).as_slice());
    Ok(())
}
