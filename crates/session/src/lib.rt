//! Sessions: what becomes of each item of the input, by those before it.
#![tactic(auto)]

mod decision;
mod laws;
mod session;

pub use decision::Decision;
pub use laws::{
    alike_queries_have_equal_texts, last_ends_have_no_answer, live_queries_hold_slots,
    messages_are_what_views_take, only_marks_and_ends_print, outputs_only_grow,
    passed_windows_stay, queries_are_numbered_in_order,
};
pub use session::{Clock, Seat, Session};
