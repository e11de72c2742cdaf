//! What is done on a shelf for one item, whatever engine decides it: the outputs of new queries are begun, the text that
//! is due is put on outputs, and the answer is said.
#![tactic(auto)]

mod broken;
mod delivery;
mod engine;
mod processor;
mod stop;

pub use broken::Broken;
pub use engine::QueryEngine;
pub use processor::Processor;
pub use stop::Stop;
