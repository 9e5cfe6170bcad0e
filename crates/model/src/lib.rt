// The subject's own words: shapes, rows, refusals, senses, and the contracts that condition kinds, logs and intakes keep.
#![tactic(auto)]

mod band;
mod exact;
mod head;
mod intake;
mod kind;
mod log;
mod refusal;
mod row;
mod sense;
mod shape;
mod sizes;
pub mod theory;

pub use band::Band;
pub use exact::Exact;
pub use head::Head;
pub use intake::Intake;
pub use kind::Kind;
pub use log::Log;
pub use refusal::{Refusal, Stray};
pub use row::Row;
pub use sense::Sense;
pub use shape::Shape;
