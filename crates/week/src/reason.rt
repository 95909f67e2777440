ghost use Rattle.std.specs.Prelude.{◌≡◌, Some};
ghost use Rattle.week.specs.Reason.{reason_of, reason_text};

use crate::fault::CheckFault;
use std::fmt;

/// Why a week of day rows is refused.
#[derive(Clone, Copy, PartialEq, Eq, Debug)]
pub enum Reason {
    /// An hour of the day is 3.
    BadHour,
    /// The week ends after so many bytes.
    Short(usize),
    /// Bytes follow the last day.
    Long,
    /// The slice for a save is not as long as the week.
    SaveLength,
}

/// Seven day rows.
pub const WEEK_BYTES: usize = 42;

/// Why a week of day rows, of which so many bytes were read, is refused.
pub fn reason_of(fault: CheckFault, length: usize) -> Reason
    ensures { result ≡ reason_of fault length }
{
    match fault {
        CheckFault::Day(refused) if !refused.fault.is_length() => Reason::BadHour,
        CheckFault::Day(_) if length < WEEK_BYTES => Reason::Short(length),
        CheckFault::Day(_) => Reason::Long,
        CheckFault::Save(_) => Reason::SaveLength,
    }
}

impl fmt::Display for Reason {
    ghost output = { λ r. Some (reason_text r) };

    fn fmt<W: fmt::Write>(&self, f: &mut fmt::Formatter<W>) -> fmt::Result {
        match self {
            Reason::BadHour => {
                f.write_str("an hour of the day is 3, which is neither off, low nor comfort")
            }
            Reason::Short(length) => write!(f, "the week ends after {length} of 42 bytes"),
            Reason::Long => f.write_str("the week goes on after 42 bytes"),
            Reason::SaveLength => f.write_str("the slice for it is not as long as the week"),
        }
    }
}
