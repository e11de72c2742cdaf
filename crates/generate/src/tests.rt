use super::*;
use std::test::Fail;

#[test]
fn lines_of_a_number(rt: HostRuntime) -> Result<(), Fail> {
    let rows: [(u64, &[u8]); 7] = [
        (1, b"create select from a where v1 < 30000"),
        (2, b"rec a 20 17 35963 3 24220 0"),
        (3, b"rec b 30 24 21722 1 16810 0"),
        (6, b"rec a 60 28 1315 0 -5633 0"),
        (8, b"mark b 80"),
        (97, b"create join a b tumble 400"),
        (273, b"delete 1"),
    ];
    let alloc = rt.alloc();
    for (i, wanted) in rows {
        assert!(rt; i <= 10_000_000);
        let mut out = Vec::new(alloc);
        line(1, i, 2, &mut out).map_err(|_| "memory")?;
        assert_eq!(rt; out.as_slice(), wanted);
        assert!(rt; item(alloc, 1, i, 2).is_ok());
    }
    Ok(())
}
