// What it costs that a first alarm stands some levels below its second.
ghost use Rattle.std.specs.Prelude.{◌≡◌, ℕ, List};
ghost use Rattle.charge.specs.Charges.{Fair, charge_at, doubling, plain, steep};
ghost use Rattle.std.proofs.Common.{rules};

// How many distances a charge tells apart, and the largest of them.
pub const DISTANCES: usize = 8;

pub const MAX_DISTANCE: u8 = 7;

pub const MAX_CHARGE: u8 = 200;

// A charge means a list p(0) to p(7), each 0 to 200, that is convex.
pub trait Charge {
    ghost row: { Self → List ℕ };

    // The charge of the distance d: p(d), and above 7 as for 7.
    fn at(&self, d: u8) -> u8
        ensures { result ≡ charge_at (row self.now) d };

    ghost fair: { (x : Self) → Fair (row x) };
}

// p(d) = d + 1: with it the cost of a placement is its weighted agony.
#[derive(Clone, Copy, Debug, PartialEq, Eq)]
pub struct Plain;

impl Charge for Plain {
    ghost row = { λ _. plain };

    ghost fair = { Prim.search rules };

    fn at(&self, d: u8) -> u8 {
        d.min(MAX_DISTANCE) + 1
    }
}

// p(d) = 2 to the power d.
#[derive(Clone, Copy, Debug, PartialEq, Eq)]
pub struct Doubling;

impl Charge for Doubling {
    ghost row = { λ _. doubling };

    ghost fair = { Prim.search rules };

    fn at(&self, d: u8) -> u8 {
        1 << d.min(MAX_DISTANCE)
    }
}

// p(d) = (d + 1)(d + 2) / 2.
#[derive(Clone, Copy, Debug, PartialEq, Eq)]
pub struct Steep;

impl Charge for Steep {
    ghost row = { λ _. steep };

    ghost fair = { Prim.search rules };

    #[tactic(auto, using(crate::proofs::Rising::product_small))]
    fn at(&self, d: u8) -> u8 {
        let d = d.min(MAX_DISTANCE);
        (d + 1) * (d + 2) / 2
    }
}
