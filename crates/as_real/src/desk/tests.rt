use super::*;
use std::fs;
use std::test::Fail;

#[test]
fn an_output_is_its_file(rt: HostRuntime) -> Result<(), Fail> {
    let mut desk = RealDesk::new(&rt, rt.alloc());
    assert!(rt; desk.put(1, b"none").is_err());
    assert_eq!(rt; desk.begin(1), Ok(()));
    assert_eq!(rt; desk.put(1, b"5 1\n"), Ok(()));
    assert_eq!(rt; desk.put(1, b"6 2\n"), Ok(()));
    let text = fs::read_to_string(&rt, "query-1.txt")?;
    fs::remove_file(&rt, "query-1.txt")?;
    assert_eq!(rt; text.as_str(), "5 1\n6 2\n");
    assert!(rt; desk.put(1, b"7 3\n").is_err());
    Ok(())
}
