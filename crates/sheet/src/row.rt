// One row: how often the first alarm came up shortly before the second.
ghost use Rattle.std.specs.Prelude.{◌≡◌, ◌+◌, OnOk, OnErr, if◌then◌else◌, nat_lt};

use crate::fault::Fault;

// The largest true count: the runtime's counter stops at the next number.
pub const MAX_COUNT: u16 = 32766;

#[derive(Clone, Copy, PartialEq, Eq, Debug, Default)]
pub struct Row {
    pub first: u8,
    pub second: u8,
    pub count: u16,
}

impl Row {
    ghost use Rattle.sheet.specs.Causes.{refused_if};
    ghost use Rattle.sheet.specs.Rows.{is_of, max_count, raised};

    // Whether this is the row of the pair.
    pub(crate) fn is_of(&self, first: u8, second: u8) -> bool
        ensures { result ≡ is_of first second self.now }
    {
        (self.first, self.second) == (first, second)
    }

    // The count where it is wanted, and else 0.
    pub(crate) fn count_if(&self, wanted: bool) -> u32
        ensures { result ≡ (if wanted then self.now.count else 0) }
    {
        if wanted { u32::from(self.count) } else { 0 }
    }

    // Raises the count, unless it would pass the largest true count.
    pub(crate) fn raise(&mut self, by: u16) -> Result<(), Fault>
        ensures answered { result ≡ refused_if Fault.CountOverflow (nat_lt max_count (self.old.count + by)) }
        ensures raised { OnOk result (self.new ≡ raised by self.old) }
        ensures kept { OnErr result (self.new ≡ self.old) }
    {
        self.count = self
            .count
            .checked_add(by)
            .filter(|&sum| sum <= MAX_COUNT)
            .ok_or(Fault::CountOverflow)?;
        Ok(())
    }
}
