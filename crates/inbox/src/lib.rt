//! The loads of five feeders to one taker, through a queue of fixed room that threads share: of each feeder what is
//! taken is a prefix of what it offered, in order and each load once.
#![tactic(auto)]

mod inbox;
mod load;
mod passes;
mod rule;
mod seats;
mod watch;

pub use load::{Ending, Full, Load};
pub use passes::{Closed, FeedPass, Inbox, TakePass};
pub use watch::{Unwatched, Watch};

#[cfg(test)]
mod tests;
