use crate::State;
use as_base::NoMemory;
use std::alloc::Global;
use std::test::Fail;

// A state is made, and takes two advances.
fn runs(alloc: Global) -> Result<(), NoMemory> {
    let mut state = State::new(alloc, 2)?;
    state.take_marks(&[5, 0, 0, 0]);
    state.take_marks(&[5, 7, 0, 0]);
    Ok(())
}

#[test]
fn a_state_is_made(rt: HostRuntime) -> Result<(), Fail> {
    assert!(rt; runs(rt.alloc()).is_ok());
    Ok(())
}
