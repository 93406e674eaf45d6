// The works' own charge: a row of which the rules of a charge always hold.
ghost use Rattle.std.specs.Prelude.{◌≡◌, ℕ, ◌+◌, ◌*◌, ◌<◌, ◌≤◌, ◌↔◌, slice_index, length, IsTrue, IsOk, OnOk, OnErr};
ghost use Rattle.sheet.specs.Causes.{checked, first_cause};
ghost use Rattle.charge.specs.Charges.{Convex, Fair, Small, distances, plain};
ghost use Rattle.charge.specs.Fits.{fit_causes};

use crate::charges::{Charge, DISTANCES, MAX_CHARGE, MAX_DISTANCE};
use sheet::Fault;

#[derive(Clone, Copy, Debug, PartialEq, Eq)]
pub struct OwnRow {
    row: [u16; DISTANCES],
    ghost fair: { Fair row },
}

impl OwnRow {
    ghost use Rattle.charge.specs.OwnRows.{row_of};

    // The row 1 to 8, as the plain charge has it.
    pub fn new() -> Self
        ensures { row_of result ≡ plain }
    {
        OwnRow {
            row: [1, 2, 3, 4, 5, 6, 7, 8],
        }
    }

    // Takes the numbers for its row, if they are eight, within 200 and convex.
    #[tactic(auto, using(crate::proofs::Fits::small_tells, crate::proofs::Fits::convex_tells))]
    pub fn fit(&mut self, numbers: &[u16]) -> Result<(), Fault>
        ensures answered { result ≡ checked (first_cause (fit_causes numbers.now)) tt }
        ensures fair { IsOk result ↔ Fair numbers.now }
        ensures taken { OnOk result (row_of self.new ≡ numbers.now) }
        ensures kept { OnErr result (self.new ≡ self.old) }
    {
        let row = <[u16; DISTANCES]>::try_from(numbers).map_err(|_| Fault::ChargeLength)?;
        if !is_small(numbers) {
            return Err(Fault::ChargeTooLarge);
        }
        if !is_convex(&row) {
            return Err(Fault::NotConvex);
        }
        *self = OwnRow { row };
        Ok(())
    }
}

impl Default for OwnRow {
    ghost use Rattle.charge.specs.OwnRows.{row_of};

    ghost is_default = { λ own. row_of own ≡ plain };

    fn default() -> Self {
        OwnRow::new()
    }
}

impl Charge for OwnRow {
    ghost use Rattle.charge.specs.OwnRows.{row_of};

    ghost row = { row_of };

    ghost fair = { λ own. own.fair };

    fn at(&self, d: u8) -> u8 {
        self.row[usize::from(d.min(MAX_DISTANCE))] as u8
    }
}

// Whether no number is above 200.
fn is_small(numbers: &[u16]) -> bool
    requires { length numbers.now ≡ distances }
    ensures { IsTrue result ↔ Small numbers.now }
{
    numbers
        .iter()
        .all(|&number| number <= u16::from(MAX_CHARGE))
}

// Whether no step of the row is smaller than the one before it, the first counted from 0.
fn is_convex(row: &[u16; DISTANCES]) -> bool
    ensures { IsTrue result ↔ Convex row.now }
{
    row[0] <= row[1] / 2 && steps_grow(row)
}

// Whether no number is above the middle of its neighbours.
fn steps_grow(row: &[u16; DISTANCES]) -> bool
    ensures { IsTrue result ↔ ((j : ℕ) → j < 6
        → 2 * slice_index row.now (j + 1) ≤ slice_index row.now (j + 2) + slice_index row.now j) }
{
    row.array_windows::<3>().all(|&[before, number, after]| number <= before.midpoint(after))
}
