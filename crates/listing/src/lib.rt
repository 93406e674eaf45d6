// What is written of an image: the complaint about a broken one.
#![tactic(auto)]

mod complaint;
mod laws;

pub use complaint::complain;
pub use laws::text_laws;
