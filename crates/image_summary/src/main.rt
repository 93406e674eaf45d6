// Reads an image from standard input, and prints what it holds, or why and where it is refused.
#![tactic(auto)]

ghost use Rattle.std.specs.Prelude.{◌≡◌, ◌↔◌, IsOk, OnOk};
ghost use Rattle.std.specs.Io.KnownBytes.{Appends};
ghost use Rattle.sheet.specs.Sheets.{book_of};
ghost use Rattle.charge.specs.Charges.{plain};
ghost use Rattle.charge.specs.Prices.{priced};
ghost use Rattle.listing.specs.Complaints.{complaint};
ghost use Rattle.image_summary.specs.Summaries.{FitsTop, SumsUp, all_on_top, top_cost};

use charge::{Plain, price};
use image::{MAX_IMAGE, load};
use image_format::ImageFault;
use listing::complain;
use sheet::{Fault, MAX_ALARMS, Sheet};
use std::io::{Read, Write};
use std::{fmt, io};

// What is told of a good image.
#[derive(Clone, Copy, Debug, PartialEq, Eq)]
struct Summary {
    alarms: u8,
    rows: usize,
    notes: u32,
    cost: u32,
}

impl fmt::Display for Summary {
    fn fmt<W: fmt::Write>(&self, f: &mut fmt::Formatter<W>) -> fmt::Result {
        let Self {
            alarms,
            rows,
            notes,
            cost,
        } = self;
        write!(
            f,
            "{alarms} alarms, {rows} rows, {notes} notes, cost {cost} with all on level 0"
        )
    }
}

// Prices all alarms on level 0 under the plain charge.
fn price_on_top(sheet: &Sheet) -> Result<u32, Fault>
    ensures answered { result ≡ priced (book_of sheet.now) plain all_on_top }
    ensures placed { IsOk result ↔ FitsTop (book_of sheet.now) }
{
    price(sheet, &Plain, &[0; MAX_ALARMS as usize])
}

// What it costs under the plain charge that all alarms are on level 0.
fn cost_on_top(sheet: &Sheet) -> u32
    ensures { result ≡ top_cost (book_of sheet.now) }
{
    price_on_top(sheet).unwrap_or(0)
}

// Loads an image, and sums up what it holds.
fn summarize(image: &[u8]) -> Result<Summary, ImageFault>
    ensures { SumsUp image.now result }
{
    let mut sheet = Sheet::new();
    let notes = load(image, &mut sheet)?;
    Ok(Summary {
        alarms: sheet.alarms(),
        rows: sheet.rows().len(),
        notes,
        cost: cost_on_top(&sheet),
    })
}

// Writes the line that tells a refusal, and nothing else.
#[tactic(auto, using(crate::proofs::Complaints::complaint_short))]
fn write_complaint<W: Write>(out: &mut W, fault: ImageFault) -> io::Result<()>
    ensures { OnOk result (Appends (W.contents out.old) (W.contents out.new) (complaint fault)) }
{
    let mut line = [0; 64];
    let Ok(length) = complain(&fault, &mut line) else {
        unreachable!();
    };
    out.write_all(&line[..length])
}

fn main(rt: HostRuntime) -> io::Result<()> {
    let mut image = Vec::new(rt.alloc());
    rt.stdin()
        .take(MAX_IMAGE as u64 + 1)
        .read_to_end(&mut image)?;
    match summarize(&image) {
        Ok(summary) => println!(rt; "{summary}"),
        Err(fault) => write_complaint(&mut rt.stdout(), fault),
    }
}
