//! The outside of the service as contracts see it: shelves and desks with logs and counts of faults, two of them in
//! memory, sources of bytes, gates, and the report of a run.
#![tactic(auto)]

mod cuts;
mod entry;
mod faults;
mod gate;
mod mem_desk;
mod mem_source;
mod report;
mod shelf;
mod source;
mod sure_desk;
mod tape;

pub use entry::Entry;
pub use gate::{FreeGate, Gate, Place};
pub use mem_desk::MemDesk;
pub use mem_source::MemSource;
pub use report::{Report, Status, code};
pub use shelf::{Desk, Failed, Shelf};
pub use source::{Feeds, Source};
pub use sure_desk::SureDesk;
