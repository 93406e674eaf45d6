// Enters the ring of three pairs by calls, and prints what each call answered, each alarm's totals, the rows, and what a placement costs.
#![tactic(auto)]

ghost use Rattle.levels.specs.Steps.{call_of};
ghost use Rattle.sheet.specs.Calls.{Does};
ghost use Rattle.sheet.specs.Sheets.{book_of};

use charge::{Charge, Doubling, OwnRow, Plain, Steep, price};
use sheet::{Fault, Row, Sheet};
use std::{fmt, io};

// A call to make on the sheet.
#[derive(Clone, Copy)]
enum Step {
    Open { alarms: u8, limit: u8 },
    Note { first: u8, second: u8, count: u32 },
    Strike { first: u8, second: u8 },
}

impl fmt::Display for Step {
    fn fmt<W: fmt::Write>(&self, f: &mut fmt::Formatter<W>) -> fmt::Result {
        match *self {
            Step::Open { alarms, limit } => write!(f, "open {alarms} alarms, limit {limit}"),
            Step::Note {
                first,
                second,
                count,
            } => write!(f, "note {first} -> {second}, count {count}"),
            Step::Strike { first, second } => write!(f, "strike {first} -> {second}"),
        }
    }
}

// Makes the call that a step names.
fn perform(sheet: &mut Sheet, step: Step) -> Result<(), Fault>
    ensures { Does (book_of sheet.old) (call_of step) result (book_of sheet.new) }
{
    match step {
        Step::Open { alarms, limit } => sheet.open(alarms, limit),
        Step::Note {
            first,
            second,
            count,
        } => sheet.note(first, second, count),
        Step::Strike { first, second } => sheet.strike(first, second),
    }
}

// Performs the steps in turn, and prints each with its answer.
fn enter(rt: &impl Print, sheet: &mut Sheet, steps: &[Step]) -> io::Result<()> {
    for step in steps {
        match perform(sheet, *step) {
            Ok(()) => println!(rt; "{step}: done")?,
            Err(fault) => println!(rt; "{step}: {fault}")?,
        }
    }
    Ok(())
}

// Prints each alarm's two totals.
fn print_standings(rt: &impl Print, sheet: &Sheet) -> io::Result<()> {
    for alarm in 0..sheet.alarms() {
        if let Ok((first, second)) = sheet.standing(alarm) {
            println!(rt; "alarm {alarm}: first {first}, second {second}")?;
        }
    }
    Ok(())
}

// Prints the rows in their order.
fn print_rows(rt: &impl Print, sheet: &Sheet) -> io::Result<()> {
    for row in sheet.rows() {
        let Row {
            first,
            second,
            count,
        } = *row;
        println!(rt; "row {first} -> {second}: {count}")?;
    }
    Ok(())
}

// Prints what the placement costs under a charge.
fn print_price<C: Charge>(
    rt: &impl Print,
    sheet: &Sheet,
    levels: &[u8],
    name: &str,
    charge: &C,
) -> io::Result<()> {
    match price(sheet, charge, levels) {
        Ok(cost) => println!(rt; "{name} charge: cost {cost}"),
        Err(fault) => println!(rt; "{name} charge: {fault}"),
    }
}

// Prints what the placement costs under each of the four charges.
fn print_prices(rt: &impl Print, sheet: &Sheet, levels: &[u8]) -> io::Result<()> {
    println!(rt; "levels {levels:?}")?;
    print_price(rt, sheet, levels, "plain", &Plain)?;
    print_price(rt, sheet, levels, "doubling", &Doubling)?;
    print_price(rt, sheet, levels, "steep", &Steep)?;
    print_price(rt, sheet, levels, "own", &OwnRow::new())
}

fn main(rt: HostRuntime) -> io::Result<()> {
    let steps = [
        Step::Open {
            alarms: 3,
            limit: 3,
        },
        Step::Note {
            first: 0,
            second: 1,
            count: 5,
        },
        Step::Note {
            first: 1,
            second: 2,
            count: 4,
        },
        Step::Note {
            first: 2,
            second: 0,
            count: 1,
        },
        Step::Strike {
            first: 1,
            second: 2,
        },
        Step::Note {
            first: 1,
            second: 2,
            count: 32767,
        },
        Step::Note {
            first: 1,
            second: 2,
            count: 4,
        },
    ];
    let mut sheet = Sheet::new();
    enter(&rt, &mut sheet, &steps)?;
    print_standings(&rt, &sheet)?;
    print_rows(&rt, &sheet)?;
    print_prices(&rt, &sheet, &[0, 1, 2])
}
