// Loads a sheet from an image, and hands out the names in it.
#![tactic(auto)]

mod field;
mod loading;
mod names;
mod reading;
mod source;

pub use loading::{MAX_IMAGE, load};
pub use names::{Image, Name};
