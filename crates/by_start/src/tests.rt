use crate::ByStart;
use std::test::Fail;

#[test]
fn things_stand_by_rising_start(rt: HostRuntime) -> Result<(), Fail> {
    let mut list: ByStart<u64> = ByStart::new(rt.alloc());
    list.insert(7, 70)?;
    list.insert(3, 30)?;
    list.insert(11, 110)?;
    assert!(rt; list.len() == 3 && list.start(0) == 3 && *list.thing(2) == 110);
    assert!(rt; list.find(7) == Some(1) && list.find(8) == None);
    assert!(rt; list.within(3, 11) == (0, 2) && list.within(8, 11) == (0, 0));
    *list.thing_mut(1) = 71;
    assert!(rt; list.remove(0) == 30 && list.len() == 2 && *list.thing(0) == 71);
    Ok(())
}
