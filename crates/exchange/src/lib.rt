// The exchange's log, and what a book of it answers: under which conditions an invoice is discarded.
#![tactic(auto)]

mod answers;
mod deciding;
#[cfg(test)]
mod examples;
mod forecasts;
mod listing;
mod making;
mod messages;
mod rule;
mod trouble;
mod words;

pub use answers::{Answers, ask};
pub use deciding::first_deciding;
pub use forecasts::Forecast;
pub use making::new_book;
pub use messages::{CLASS, DAY, DISCARDED, MESSAGES, STATES, State};
pub use rule::Rule;
pub use trouble::Trouble;
pub use words::{Decision, Listing};
