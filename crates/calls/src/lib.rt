// Calls for a program in C or Rust, which links them by the crate calls_c: one call lists over the bytes of an image.
#![tactic(auto)]

mod answer;
#[cfg(test)]
mod examples;
mod exports;
mod listing;
mod trouble;

pub use answer::Answer;
pub use exports::rulebook_list;
