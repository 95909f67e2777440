// The release check's report, as a person reads it.
ghost use Rattle.std.specs.Prelude.{◌≡◌, Some};
ghost use Rattle.week.specs.Reason.{reason_of};
ghost use Rattle.week.specs.Report.{line_text, lines_text, saved_text, accepted_text, subject_text, refused_text};
ghost use Rattle.week.specs.Week.{week_days};

use crate::day::Day;
use crate::drawing::{Drawn, hours_in};
use crate::fault::CheckFault;
use crate::reason::{Reason, reason_of};
use crate::verdict::{Checked, Verdict};
use crate::week::Week;
use kinds::row::{DayRow, HourMode};
use refusal::Refusal;
use std::fmt;

/// One day of the week: its hours drawn, its name, and how many hours are comfort and low.
#[derive(Clone, Copy)]
pub struct DayLine<'a> {
    pub day: Day,
    pub row: &'a DayRow,
}

impl fmt::Display for DayLine<'_> {
    ghost output = { λ l. Some (line_text l.day l.row.now) };

    fn fmt<W: fmt::Write>(&self, f: &mut fmt::Formatter<W>) -> fmt::Result {
        write!(
            f,
            "{}  {}: comfort {} h, low {} h",
            Drawn(self.row),
            self.day,
            hours_in(self.row, HourMode::Comfort),
            hours_in(self.row, HourMode::Low)
        )
    }
}

// The seven lines of a week.
#[derive(Clone, Copy)]
struct DayLines<'a>(&'a Week<DayRow>);

impl fmt::Display for DayLines<'_> {
    ghost output = { λ l. Some (lines_text week_days l.0.now.days) };

    fn fmt<W: fmt::Write>(&self, f: &mut fmt::Formatter<W>) -> fmt::Result {
        for (&day, row) in Day::ALL.iter().zip(&self.0.days) {
            writeln!(f, "{}", DayLine { day, row })?;
        }
        Ok(())
    }
}

/// A week and its two saves: what a report on them says before its verdict.
#[derive(Clone, Copy)]
pub struct Saved<'a> {
    pub week: &'a Week<DayRow>,
    pub first: &'a [u8],
    pub second: &'a [u8],
}

impl fmt::Display for Saved<'_> {
    ghost output = { λ s. Some (saved_text s.week.now s.first.now s.second.now) };

    fn fmt<W: fmt::Write>(&self, f: &mut fmt::Formatter<W>) -> fmt::Result {
        write!(
            f,
            "Hours from midnight: '.' off, '-' low, '#' comfort\n{}First save:  {} bytes\nSecond save: {} bytes",
            DayLines(self.week),
            self.first.len(),
            self.second.len()
        )
    }
}

/// A week that was accepted, its two saves, and what is said of them.
#[derive(Clone, Copy)]
pub struct Accepted<'a> {
    pub saved: Saved<'a>,
    pub verdict: Verdict,
}

impl<'a> Accepted<'a> {
    /// The report on a week that was checked: its own days, and the verdict that its own check gave.
    pub fn of(checked: &'a Checked<DayRow>, first: &'a [u8], second: &'a [u8]) -> Accepted<'a>
        ensures week { result.saved.week.now ≡ checked.now.week }
        ensures first { result.saved.first.now ≡ first.now }
        ensures second { result.saved.second.now ≡ second.now }
        ensures verdict { result.verdict ≡ checked.now.verdict }
    {
        Accepted {
            saved: Saved {
                week: &checked.week,
                first,
                second,
            },
            verdict: checked.verdict,
        }
    }
}

impl fmt::Display for Accepted<'_> {
    ghost output = { λ a. Some (accepted_text a.saved.week.now a.saved.first.now
        a.saved.second.now a.verdict) };

    fn fmt<W: fmt::Write>(&self, f: &mut fmt::Formatter<W>) -> fmt::Result {
        write!(f, "{}\n{}", self.saved, self.verdict)
    }
}

/// A week that was refused, with the number of bytes that were read of it.
#[derive(Clone, Copy)]
pub struct Refused {
    pub fault: CheckFault,
    pub length: usize,
}

impl Refused {
    // Why it was refused.
    fn reason(&self) -> Reason
        ensures { result ≡ reason_of self.now.fault self.now.length }
    {
        reason_of(self.fault, self.length)
    }
}

impl fmt::Display for Refused {
    ghost output = { λ r. Some (refused_text r.fault r.length) };

    fn fmt<W: fmt::Write>(&self, f: &mut fmt::Formatter<W>) -> fmt::Result {
        write!(
            f,
            "{} is refused: {}\nReason: {}\n{}",
            Subject(self.fault),
            Refusal::from(self.fault),
            self.reason(),
            Verdict::Stays
        )
    }
}

// What was refused.
#[derive(Clone, Copy)]
struct Subject(CheckFault);

impl fmt::Display for Subject {
    ghost output = { λ s. Some (subject_text s.0) };

    fn fmt<W: fmt::Write>(&self, f: &mut fmt::Formatter<W>) -> fmt::Result {
        match self.0 {
            CheckFault::Day(refused) => refused.day.fmt(f),
            CheckFault::Save(_) => f.write_str("A save"),
        }
    }
}
