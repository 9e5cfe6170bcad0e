// The book: a shape, a condition kind and a log, with notes, listings and forecasts.
#![tactic(auto)]

mod book;
mod notes;
mod questions;

pub use book::Book;
