use crate::made::{Numbers, mixed, record_at};
use crate::queries::queries;
use crate::work::Work;
use as_base::{Kind, NoMemory, StreamId};
use shared_select::Selector;
use std::alloc::Global;

/// Which slots want each record, by a `Selector` that is advanced to the record's time.
pub(crate) fn by_selector(work: &Work, alloc: Global) -> Result<u64, NoMemory> {
    let epochs = queries(Kind::Select, work.slots, alloc)?;
    let mut selector = Selector::new(alloc, StreamId::A)?;
    let mut numbers = Numbers::from(work.records);
    let mut sum = 0;
    for time in 0..work.records {
        let given = record_at(time, &mut numbers);
        selector.advance_to(given.time, &epochs);
        sum = mixed(sum, &selector.tag(&given).words());
    }
    Ok(sum)
}
