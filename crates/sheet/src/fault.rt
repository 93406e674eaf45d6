// Why a call is refused.
ghost use Rattle.std.specs.Prelude.{◌≡◌, Some};
ghost use Rattle.sheet.specs.Numbers.{number_of, fault_text};

use std::error::Error;
use std::fmt;

// Each fault has the number by which it is known outside.
#[derive(Clone, Copy, PartialEq, Eq, Debug)]
pub enum Fault {
    // The number of alarms is not 1 to 64.
    Alarms = 10,
    // The level limit is not 1 to 8.
    Limit = 11,
    // An alarm is not below the number of alarms.
    UnknownAlarm = 12,
    // Both alarms of a pair are the same.
    SameAlarm = 13,
    // A count of 0.
    ZeroCount = 14,
    // A count of 32767 or more: the runtime's counter was pinned.
    PinnedCount = 15,
    // The pair has no row.
    NoRow = 16,
    // The row's new count would be above 32766.
    CountOverflow = 17,
    // A new pair while 512 rows stand.
    Full = 18,
    // The level buffer is shorter than the number of alarms.
    ShortLevels = 20,
    // A charge of other than eight numbers.
    ChargeLength = 22,
    // A charge with a number above 200.
    ChargeTooLarge = 23,
    // A charge that is not convex.
    NotConvex = 24,
    // A level is not below the limit.
    LevelBeyondLimit = 26,
}

impl Fault {
    // The number by which the refusal is known outside.
    pub fn number(&self) -> u8
        ensures value { result ≡ number_of self.now }
        ensures apart { (other : Fault) → number_of other ≡ result → other ≡ self.now }
    {
        *self as u8
    }
}

impl fmt::Display for Fault {
    ghost output = { λ f. Some (fault_text f) };

    fn fmt<W: fmt::Write>(&self, f: &mut fmt::Formatter<W>) -> fmt::Result {
        write!(f, "refused {}", self.number())
    }
}

impl Error for Fault {}
