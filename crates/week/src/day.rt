ghost use Rattle.std.specs.Prelude.{◌≡◌, ◌<◌, slice_index_or, Some};
ghost use Rattle.week.specs.declared.day.Day.TheVariants.{Sunday};
ghost use Rattle.week.specs.Report.{day_text};
ghost use Rattle.week.specs.Week.{day_index, week_days};

use kinds::fault::ContentFault;
use std::fmt;

#[derive(Clone, Copy, PartialEq, Eq, Debug)]
pub enum Day {
    Monday,
    Tuesday,
    Wednesday,
    Thursday,
    Friday,
    Saturday,
    Sunday,
}

/// The first day of a week whose bytes its kind refuses, and the kind's fault.
#[derive(Clone, Copy, PartialEq, Eq, Debug)]
pub struct RefusedDay {
    pub day: Day,
    pub fault: ContentFault,
}

impl Day {
    /// The days of a week in order.
    pub const ALL: [Day; 7] = [
        Day::Monday,
        Day::Tuesday,
        Day::Wednesday,
        Day::Thursday,
        Day::Friday,
        Day::Saturday,
        Day::Sunday,
    ];

    /// The day at a place of the week, for numbers from outside: every place from 6 on is Sunday.
    pub fn at_or_last(i: usize) -> Day
        ensures index { i < 7 → day_index result ≡ i }
        ensures item { result ≡ slice_index_or week_days i Sunday }
    {
        Day::ALL.get(i).copied().unwrap_or(Day::Sunday)
    }

    /// Beside `Display`, since it cannot fail.
    pub fn name(self) -> &'static str
        ensures { result.now ≡ day_text self }
    {
        match self {
            Day::Monday => "Monday",
            Day::Tuesday => "Tuesday",
            Day::Wednesday => "Wednesday",
            Day::Thursday => "Thursday",
            Day::Friday => "Friday",
            Day::Saturday => "Saturday",
            Day::Sunday => "Sunday",
        }
    }
}

// The day's place in the week, Monday at 0.
impl From<Day> for usize {
    ghost from_gives = { λ day i. i ≡ day_index day };

    fn from(day: Day) -> usize {
        day as usize
    }
}

impl fmt::Display for Day {
    ghost output = { λ day. Some (day_text day) };

    fn fmt<W: fmt::Write>(&self, f: &mut fmt::Formatter<W>) -> fmt::Result {
        f.write_str(self.name())
    }
}
