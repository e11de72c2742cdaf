//! The plans of queries: what the tree of a text asks for, in one form, and the one text of each plan.
#![tactic(auto)]

mod explaining;
mod laws;
mod limits;
mod planning;
mod words;

pub use explaining::explain;
pub use laws::{
    bounds_are_their_conditions, explained_plans_are_read, explained_plans_are_texts,
    plans_are_canonical,
};
pub use planning::{Misfit, plan, plan_of};

#[cfg(test)]
mod tests;
