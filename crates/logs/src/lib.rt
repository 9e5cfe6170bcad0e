// Logs over the bytes of an image: formatting and checking an image, and the packed log.
#![tactic(auto)]

mod image;
mod packed;

pub use image::checking::check;
pub use image::formatting::format;
pub use packed::PackedLog;
