// Agreement: the same questions put to two books.
#![tactic(auto)]

mod answers;
mod comparing;
mod questions;

pub use comparing::compare;
pub use questions::Asked;
