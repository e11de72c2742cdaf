//! The top call of the service: lines in, answers and outputs out, through whatever desk it is given.
#![tactic(auto)]

mod command;
mod explain;
mod generating;
mod laws;
mod run;
mod says;
mod soaking;
mod top;

pub use laws::alike_queries_have_equal_outputs;
pub use top::{astream, rehearse};
