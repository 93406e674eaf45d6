// What a placement costs.
ghost use Rattle.std.specs.Prelude.{◌≡◌, ◌^◌, ◌<◌, ◌≤◌, ◌↔◌, IsOk, IsTrue, length};
ghost use Rattle.sheet.specs.Books.{Known};
ghost use Rattle.sheet.specs.Sheets.{book_of};
ghost use Rattle.charge.specs.Costs.{Placement, cost, listed, row_cost};
ghost use Rattle.charge.specs.Prices.{priced};

use crate::charges::Charge;
use sheet::{Fault, Row, Sheet};

// The cost of the placement in the first entries of the buffer, one for each alarm.
#[tactic(auto, using(crate::proofs::Costs::placed_tells, crate::proofs::Costs::cost_fits))]
pub fn price<C: Charge>(sheet: &Sheet, charge: &C, levels: &[u8]) -> Result<u32, Fault>
    ensures answered { result ≡ priced (book_of sheet.now) (C.Charge.row charge.now) levels.now }
    ensures placed { let b = book_of sheet.now in
        IsOk result ↔ ((b.n ≤ length levels.now) × Placement b (listed levels.now)) }
{
    if levels.len() < usize::from(sheet.alarms()) {
        return Err(Fault::ShortLevels);
    }
    if !is_placement(sheet, levels) {
        return Err(Fault::LevelBeyondLimit);
    }
    Ok(sheet_cost(sheet, charge, levels))
}

// Whether each of the first levels, one for each alarm, is below the limit.
fn is_placement(sheet: &Sheet, levels: &[u8]) -> bool
    requires { (book_of sheet.now).n ≤ length levels.now }
    ensures { IsTrue result ↔ Placement (book_of sheet.now) (listed levels.now) }
{
    let limit = sheet.limit();
    levels[..usize::from(sheet.alarms())]
        .iter()
        .all(|&level| level < limit)
}

// What the levels in the buffer cost, over all rows of the sheet.
fn sheet_cost<C: Charge>(sheet: &Sheet, charge: &C, levels: &[u8]) -> u32
    requires long { (book_of sheet.now).n ≤ length levels.now }
    requires fits { cost (book_of sheet.now) (C.Charge.row charge.now) (listed levels.now) < 2 ^ 32 }
    ensures { result ≡ cost (book_of sheet.now) (C.Charge.row charge.now) (listed levels.now) }
{
    sheet
        .rows()
        .iter()
        .map(|row| row_cost(row, charge, levels))
        .sum()
}

// What the row costs: nothing where its first alarm stands above its second.
fn row_cost<C: Charge>(row: &Row, charge: &C, levels: &[u8]) -> u32
    requires { Known (length levels.now) row.now }
    ensures { result ≡ row_cost (C.Charge.row charge.now) (listed levels.now) row.now }
{
    let first = levels[usize::from(row.first)];
    let second = levels[usize::from(row.second)];
    match first.checked_sub(second) {
        Some(distance) => u32::from(row.count) * u32::from(charge.at(distance)),
        None => 0,
    }
}
