// The session: lines read into forms, done on a book, and answered in text.
#![tactic(auto)]

mod desk;
mod digits;
mod form;
mod numbers;
mod output;
mod page;
mod reader;
mod reserved;
mod running;

pub use output::Done;
pub use running::Session;
