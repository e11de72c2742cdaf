use crate::Slots;
use queryset_lanes::QuerySet;
use std::test::Fail;

#[test]
fn slots_come_by_rising_number(rt: HostRuntime) -> Result<(), Fail> {
    let set = QuerySet::none()
        .with(511, true)
        .with(0, true)
        .with(63, true)
        .with(64, true)
        .with(300, true);
    let mut slots = Slots::of(&set);
    assert!(rt; slots.next() == Some(0));
    assert!(rt; slots.next() == Some(63));
    assert!(rt; slots.next() == Some(64));
    assert!(rt; slots.next() == Some(300));
    assert!(rt; slots.next() == Some(511));
    assert!(rt; slots.next() == None);
    assert!(rt; slots.next() == None);
    let mut none = Slots::of(&QuerySet::none());
    assert!(rt; none.next() == None);
    Ok(())
}
