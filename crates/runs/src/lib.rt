// Whole runs of calls on a book, and what they tell of the states that were noted.
#![tactic(auto)]

mod calls;
mod entry;

pub use calls::run;
pub use entry::Entry;
