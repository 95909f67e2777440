ghost use Rattle.std.specs.Prelude.{◌≡◌, map, Some};
ghost use Rattle.week.specs.Drawing.{sign_of, hours_in};

use kinds::row::{DayRow, HourMode};
use std::fmt;

/// How an hour is drawn: a dot for off, a dash for low, a hash for comfort.
// A function, since neither type is of this crate, and so no `From` can stand here.
pub fn sign(mode: HourMode) -> char
    ensures { result ≡ sign_of mode }
{
    match mode {
        HourMode::Off => '.',
        HourMode::Low => '-',
        HourMode::Comfort => '#',
    }
}

/// How many hours of the day are in a mode.
pub fn hours_in(row: &DayRow, mode: HourMode) -> usize
    ensures { result ≡ hours_in mode row.now.hours }
{
    // A loop: `filter` and `count` take six times the time.
    let mut count = 0;
    for &hour in &row.hours {
        count += usize::from(hour == mode);
    }
    count
}

/// A day as 24 characters, midnight first.
#[derive(Clone, Copy)]
pub struct Drawn<'a>(pub &'a DayRow);

impl fmt::Display for Drawn<'_> {
    ghost output = { λ d. Some (map sign_of d.0.now.hours) };

    fn fmt<W: fmt::Write>(&self, f: &mut fmt::Formatter<W>) -> fmt::Result {
        for &hour in &self.0.hours {
            f.write_char(sign(hour))?;
        }
        Ok(())
    }
}
