// The sheet: a table of which the rules of a book always hold.
ghost use Rattle.std.specs.Prelude.{◌≡◌, ◌^◌, ◌<◌, OnErr};
ghost use Rattle.sheet.specs.Books.{Sound};
ghost use Rattle.sheet.specs.Rows.{total_first, total_second};
ghost use Rattle.sheet.specs.Tables.{table_book};

use crate::fault::Fault;
use crate::row::Row;
use crate::table::Table;

#[derive(Drop, Debug, PartialEq, Eq)]
pub struct Sheet {
    table: Table,
    ghost sound: { Sound (table_book table) },
}

// The calls that change a sheet are those of its table, which shows what each does to the book; and each keeps a sound book
// sound. No call asks anything of its caller, and a refusal leaves the whole sheet equal.
impl Sheet {
    ghost use Rattle.sheet.specs.Books.{new_book};
    ghost use Rattle.sheet.specs.Calls.{Does, confines, notes, opens, standing_of, strikes};
    ghost use Rattle.sheet.specs.Sheets.{book_of};

    // One alarm, the limit 1 and no rows.
    pub fn new() -> Sheet
        ensures { book_of result ≡ new_book }
    {
        Sheet {
            table: Table::new(1, 1),
        }
    }

    // Sets the number of alarms and the limit, and drops all rows.
    pub fn open(&mut self, alarms: u8, limit: u8) -> Result<(), Fault>
        ensures does { Does (book_of self.old) (opens alarms limit) result (book_of self.new) }
        ensures kept { OnErr result (self.new ≡ self.old) }
    {
        self.table.open(alarms, limit)
    }

    // Sets the limit and nothing else.
    pub fn confine(&mut self, limit: u8) -> Result<(), Fault>
        ensures does { Does (book_of self.old) (confines limit) result (book_of self.new) }
        ensures kept { OnErr result (self.new ≡ self.old) }
    {
        self.table.confine(limit)
    }

    // Raises the count of the pair's row, or adds a row for the pair at the end.
    pub fn note(&mut self, first: u8, second: u8, count: u32) -> Result<(), Fault>
        ensures does { Does (book_of self.old) (notes first second count) result (book_of self.new) }
        ensures kept { OnErr result (self.new ≡ self.old) }
    {
        self.table.note(first, second, count)
    }

    // Removes the pair's row. Later rows move up by one.
    pub fn strike(&mut self, first: u8, second: u8) -> Result<(), Fault>
        ensures does { Does (book_of self.old) (strikes first second) result (book_of self.new) }
        ensures kept { OnErr result (self.new ≡ self.old) }
    {
        self.table.strike(first, second)
    }

    // The counts where the alarm comes first, and those where it comes second.
    pub fn standing(&self, alarm: u8) -> Result<(u32, u32), Fault>
        ensures { result ≡ standing_of (book_of self.now) alarm }
    {
        if alarm >= self.alarms() {
            return Err(Fault::UnknownAlarm);
        }
        Ok(totals(self.rows(), alarm))
    }

    // The number of alarms.
    pub fn alarms(&self) -> u8
        ensures { result ≡ (book_of self.now).n }
    {
        self.table.alarms
    }

    // The level limit.
    pub fn limit(&self) -> u8
        ensures { result ≡ (book_of self.now).k }
    {
        self.table.limit
    }

    // The rows, in the order in which they were added.
    pub fn rows(&self) -> &[Row]
        ensures { result.now ≡ (book_of self.now).rows }
    {
        self.table.rows.as_slice()
    }
}

impl Default for Sheet {
    ghost use Rattle.sheet.specs.Books.{new_book};
    ghost use Rattle.sheet.specs.Sheets.{book_of};

    ghost is_default = { λ sheet. book_of sheet ≡ new_book };

    fn default() -> Sheet {
        Sheet::new()
    }
}

// An alarm's total on each side of the rows.
fn totals(rows: &[Row], alarm: u8) -> (u32, u32)
    requires first_fits { total_first alarm rows.now < 2 ^ 32 }
    requires second_fits { total_second alarm rows.now < 2 ^ 32 }
    ensures first { result.0 ≡ total_first alarm rows.now }
    ensures second { result.1 ≡ total_second alarm rows.now }
{
    (
        rows.iter()
            .map(|row| row.count_if(row.first == alarm))
            .sum(),
        rows.iter()
            .map(|row| row.count_if(row.second == alarm))
            .sum(),
    )
}
