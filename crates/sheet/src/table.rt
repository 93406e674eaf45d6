// The plain table inside a sheet: the rows in the order in which they were added, in an array of fixed size.
ghost use Rattle.std.specs.Prelude.{◌≡◌, ◌<◌, [], length, IfNone, IfSome, OnErr, remove};
ghost use Rattle.sheet.specs.Causes.{checked, first_cause};
ghost use Rattle.sheet.specs.Calls.{count_causes};

use crate::fault::Fault;
use crate::row::{MAX_COUNT, Row};
use crate::row_array::Rows;

pub const MAX_ALARMS: u8 = 64;

pub const MAX_LIMIT: u8 = 8;

#[derive(Drop, Debug, PartialEq, Eq)]
pub(crate) struct Table {
    pub(crate) alarms: u8,
    pub(crate) limit: u8,
    pub(crate) rows: Rows,
}

impl Table {
    ghost use Rattle.std.specs.List.{position};
    ghost use Rattle.std.specs.Option.{ForSome};
    ghost use Rattle.sheet.specs.Books.{PairsOnce, with_rows};
    ghost use Rattle.sheet.specs.Calls.{Does, confines, notes, opens, pair_causes, strikes};
    ghost use Rattle.sheet.specs.Rows.{is_of};
    ghost use Rattle.sheet.specs.Tables.{table_book};

    // A table without rows.
    pub(crate) fn new(alarms: u8, limit: u8) -> Table
        ensures { table_book result ≡ record { n = alarms; k = limit; rows = [] } }
    {
        Table {
            alarms,
            limit,
            rows: Rows::new(),
        }
    }

    // Sets the number of alarms and the limit, and drops all rows.
    pub(crate) fn open(&mut self, alarms: u8, limit: u8) -> Result<(), Fault>
        ensures does { Does (table_book self.old) (opens alarms limit) result (table_book self.new) }
        ensures kept { OnErr result (self.new ≡ self.old) }
    {
        if !(1..=MAX_ALARMS).contains(&alarms) {
            return Err(Fault::Alarms);
        }
        self.confine(limit)?;
        self.alarms = alarms;
        self.rows.clear();
        Ok(())
    }

    // Sets the limit and nothing else.
    pub(crate) fn confine(&mut self, limit: u8) -> Result<(), Fault>
        ensures does { Does (table_book self.old) (confines limit) result (table_book self.new) }
        ensures kept { OnErr result (self.new ≡ self.old) }
    {
        if !(1..=MAX_LIMIT).contains(&limit) {
            return Err(Fault::Limit);
        }
        self.limit = limit;
        Ok(())
    }

    // Refuses a pair that is not of two different known alarms.
    fn check_pair(&self, first: u8, second: u8) -> Result<(), Fault>
        ensures { result ≡ checked (first_cause (pair_causes (table_book self.now) first second)) tt }
    {
        if first >= self.alarms || second >= self.alarms {
            return Err(Fault::UnknownAlarm);
        }
        if first == second {
            return Err(Fault::SameAlarm);
        }
        Ok(())
    }

    // The place of the pair's row, if it has one.
    fn find(&self, first: u8, second: u8) -> Option<usize>
        ensures { result ≡ position (is_of first second) (table_book self.now).rows }
    {
        self.rows
            .as_slice()
            .iter()
            .position(|row| row.is_of(first, second))
    }

    // Takes out the row at a place, if there is one.
    fn remove(&mut self, at: Option<usize>) -> Result<(), Fault>
        requires { ForSome at (λ i. i < length (table_book self.old).rows) }
        ensures some { IfSome at (λ i. (result ≡ Ok tt)
            × (table_book self.new ≡ with_rows (table_book self.old) (remove (table_book self.old).rows i))) }
        ensures none { IfNone at ((result ≡ Err Fault.NoRow) × (table_book self.new ≡ table_book self.old)) }
        ensures kept { OnErr result (self.new ≡ self.old) }
    {
        let Some(at) = at else {
            return Err(Fault::NoRow);
        };
        self.rows.remove(at);
        Ok(())
    }

    // Raises the count of the pair's row, or adds a row for the pair at the end.
    pub(crate) fn note(&mut self, first: u8, second: u8, count: u32) -> Result<(), Fault>
        requires { PairsOnce (table_book self.old) }
        ensures does { Does (table_book self.old) (notes first second count) result (table_book self.new) }
        ensures kept { OnErr result (self.new ≡ self.old) }
    {
        self.check_pair(first, second)?;
        let count = true_count(count)?;
        match self.find(first, second) {
            Some(at) => self.rows.raise(at, count),
            None => self.rows.push(Row {
                first,
                second,
                count,
            }),
        }
    }

    // Removes the pair's row. Later rows move up by one.
    pub(crate) fn strike(&mut self, first: u8, second: u8) -> Result<(), Fault>
        requires { PairsOnce (table_book self.old) }
        ensures does { Does (table_book self.old) (strikes first second) result (table_book self.new) }
        ensures kept { OnErr result (self.new ≡ self.old) }
    {
        self.check_pair(first, second)?;
        let at = self.find(first, second);
        self.remove(at)
    }
}

// The count, unless it is 0 or that of a pinned counter.
fn true_count(count: u32) -> Result<u16, Fault>
    ensures { result ≡ checked (first_cause (count_causes count)) count }
{
    if count == 0 {
        return Err(Fault::ZeroCount);
    }
    u16::try_from(count)
        .ok()
        .filter(|&count| count <= MAX_COUNT)
        .ok_or(Fault::PinnedCount)
}
