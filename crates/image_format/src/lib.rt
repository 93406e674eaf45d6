// The format of an image: its fields, which images are acceptable, and why and where others are refused.
#![tactic(auto)]

mod fault;
mod kinds;
mod laws;

pub use fault::{ImageCause, ImageFault};
pub use kinds::Counts;
pub use laws::image_laws;
