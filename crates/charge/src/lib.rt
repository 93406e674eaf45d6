// Charges, and what a placement costs under one.
#![tactic(auto)]

mod charges;
mod examples;
mod laws;
mod own_row;
mod pricing;

pub use charges::{Charge, DISTANCES, Doubling, MAX_CHARGE, MAX_DISTANCE, Plain, Steep};
pub use examples::worked_examples;
pub use laws::{charge_laws, cost_laws};
pub use own_row::OwnRow;
pub use pricing::price;
