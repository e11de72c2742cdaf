//! Five feeders in threads of their own: started, stepped here where no thread could be started, and joined.
#![tactic(auto)]

mod hall;
mod seat;
mod team;

pub use hall::Hall;
pub use team::{Five, Skips, run_team};
