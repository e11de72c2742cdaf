//! The top call of the service with five feeders: lines of five sources in, a journal, answers and outputs out, through
//! whatever sources and shelf it is given.
#![tactic(auto)]

mod desk;
mod loom;
mod outcome;
mod report;
mod sources;
mod top;
mod weaving;
mod woven;

pub use report::WeaveReport;
pub use top::weave;
