//! Takes the loads of feeders: each line is noted in a journal and then processed, until something halts it; then loads are
//! taken and dropped.
#![tactic(auto)]

mod gather;
mod halt;
mod taker;

pub use gather::Gather;
pub use halt::Halt;
pub use taker::Taker;
