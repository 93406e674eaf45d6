// The rows of a table, in the order in which they were added: the first of an array of fixed size.
ghost use Rattle.std.specs.Prelude.{◌≡◌, ◌+◌, ◌<◌, [], ◌∷◌, ◌++◌, length, OnOk, OnErr, nat_le, nat_lt, remove, slice_index_or, slice_set};
ghost use Rattle.std.specs.Cmp.Lexicographic.{lists_equiv, lists_per, pointwise};
ghost use Rattle.sheet.specs.Books.{max_rows};
ghost use Rattle.sheet.specs.Causes.{refused_if};
ghost use Rattle.sheet.specs.Rows.{blank, max_count, raised};

use crate::fault::Fault;
use crate::row::Row;
use std::fmt;
use std::marker::Model;

pub const MAX_ROWS: usize = 512;

#[derive(Drop)]
pub(crate) struct Rows {
    used: usize,
    array: [Row; MAX_ROWS],
}

// Clauses see the rows in use. What lies behind them in the array counts for nothing.
impl Model for Rows {
    ghost use Rattle.std.specs.Prelude.{◌≡◌, ◌≤◌, List, length, take};
    ghost use Rattle.sheet.specs.Books.{max_rows};
    ghost use Rattle.sheet.specs.declared.row.Row.{Row};

    ghost Value = { List Row };

    ghost view = { λ rows. take rows.used rows.array };

    ghost invariant = { λ rows. (rows.used ≤ max_rows) × (length rows.array ≡ max_rows) };
}

impl Rows {
    // No rows.
    pub(crate) fn new() -> Rows
        ensures { result ≡ [] }
    {
        Rows {
            used: 0,
            array: [Row::default(); MAX_ROWS],
        }
    }

    // The rows in use.
    pub(crate) fn as_slice(&self) -> &[Row]
        ensures { result.now ≡ self.now }
    {
        &self.array[..self.used]
    }

    // Drops all rows, at a cost that does not grow with them.
    pub(crate) fn clear(&mut self)
        ensures { self.new ≡ [] }
    {
        self.used = 0;
    }

    // Raises the count of the row at a place.
    pub(crate) fn raise(&mut self, at: usize, by: u16) -> Result<(), Fault>
        requires { at < length self.old }
        ensures answered { result ≡ refused_if Fault.CountOverflow (nat_lt max_count ((slice_index_or self.old at blank).count + by)) }
        ensures raised { OnOk result (self.new ≡ slice_set self.old at (raised by (slice_index_or self.old at blank))) }
        ensures kept { OnErr result (self.new ≡ self.old) }
    {
        let Rows { array, .. } = self;
        array[at].raise(by)
    }

    // Adds a row at the end, or refuses where the whole array is in use.
    pub(crate) fn push(&mut self, row: Row) -> Result<(), Fault>
        ensures answered { result ≡ refused_if Fault.Full (nat_le max_rows (length self.old)) }
        ensures pushed { OnOk result (self.new ≡ self.old ++ row ∷ []) }
        ensures kept { OnErr result (self.new ≡ self.old) }
    {
        if self.used == MAX_ROWS {
            return Err(Fault::Full);
        }
        self.array[self.used] = row;
        self.used += 1;
        Ok(())
    }

    // Takes out the row at a place. Later rows move up by one.
    pub(crate) fn remove(&mut self, at: usize)
        requires { at < length self.old }
        ensures { self.new ≡ remove self.old at }
    {
        self.array.copy_within(at + 1..self.used, at);
        self.used -= 1;
    }
}

impl PartialEq for Rows {
    ghost use Rattle.sheet.specs.contracts.row.RowPartialEq.TheImpl as same_row;
    ghost use Rattle.sheet.specs.contracts.row.RowPartialEq.TheImpl.Laws.{laws-law};

    ghost eq = { pointwise same_row.ghosts.eq };

    ghost laws = { lists_per laws-law };

    fn eq(&self, other: &Rows) -> bool {
        self.as_slice() == other.as_slice()
    }
}

impl Eq for Rows {
    ghost use Rattle.sheet.specs.contracts.row.RowEq.TheImpl.Laws.{laws-law};

    ghost laws = { lists_equiv laws-law };
}

impl fmt::Debug for Rows {
    fn fmt<W: fmt::Write>(&self, f: &mut fmt::Formatter<W>) -> fmt::Result {
        f.debug_list().entries(self.as_slice()).finish()
    }
}
