// Listing and forecasting, over any log and any condition kind, by a search that prunes: it passes over what a consistent
// rule dominates, and tells an optimal rule by its near misses.
#![tactic(auto)]

mod bodies;
mod forecasting;
mod heads;
mod listing;
mod rules;
mod survey;
mod weigh;

pub use forecasting::forecast;
pub use listing::list;
pub use survey::Survey;
