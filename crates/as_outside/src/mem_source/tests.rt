use super::*;
use std::test::Fail;

/// What each pull in turn gives, and the bytes in front of the buffer after it.
const PULLS: [(Result<usize, Failed>, &[u8]); 6] = [
    (Ok(3), b"abc"),
    (Err(Failed), b""),
    (Ok(5), b"defgh"),
    (Ok(2), b"ij"),
    (Ok(2), b"kl"),
    (Ok(0), b""),
];

#[test]
fn pulls_go_by_the_cuts(rt: HostRuntime) -> Result<(), Fail> {
    let alloc = rt.alloc();
    let cuts = [3usize, 1, 0, 2].to_vec(alloc)?;
    let fails = [2u64, 9].to_vec(alloc)?;
    let mut source = MemSource::new(b"abcdefghijkl".to_vec(alloc)?, cuts, fails)?;
    let mut buf = [0; 5];
    for (pulled, bytes) in PULLS {
        assert_eq!(rt; source.pull(&mut buf), pulled);
        assert!(rt; buf.starts_with(bytes));
    }
    Ok(())
}
