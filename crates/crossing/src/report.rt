ghost use Rattle.std.specs.Prelude.{◌≡◌, Some};
ghost use Rattle.crossing.specs.Report.{order_text, equal_text, tried_text, days_text, refusals_text, counts_text, crossing_text, report_text};

use crate::crossing::{Crossing, Crossings, Order};
use kinds::row::DayRow;
use network::fault::NetworkFault;
use refusal::Refusal;
use std::fmt;
use week::day::Day;
use week::report::Saved;
use week::verdict::Verdict;

impl Order {
    /// Beside `Display`, since it cannot fail.
    pub fn words(self) -> &'static str
        ensures { result.now ≡ order_text self }
    {
        match self {
            Order::OldestFirst => "oldest first",
            Order::NewestFirst => "newest first",
        }
    }
}

impl fmt::Display for Order {
    ghost output = { λ o. Some (order_text o) };

    fn fmt<W: fmt::Write>(&self, f: &mut fmt::Formatter<W>) -> fmt::Result {
        f.write_str(self.words())
    }
}

// What came of a call that must be refused, and what is said if it was not.
#[derive(Clone, Copy)]
struct Tried {
    fault: Option<NetworkFault>,
    otherwise: &'static str,
}

impl fmt::Display for Tried {
    ghost output = { λ t. Some (tried_text t.fault t.otherwise.now) };

    fn fmt<W: fmt::Write>(&self, f: &mut fmt::Formatter<W>) -> fmt::Result {
        match self.fault {
            Some(fault) => write!(f, "refused, {}", Refusal::from(fault)),
            None => f.write_str(self.otherwise),
        }
    }
}

// Days by their names, each behind a space.
#[derive(Clone, Copy)]
struct Days<'a>(&'a [usize]);

impl fmt::Display for Days<'_> {
    ghost output = { λ d. Some (days_text d.0.now) };

    fn fmt<W: fmt::Write>(&self, f: &mut fmt::Formatter<W>) -> fmt::Result {
        for day in self.0 {
            write!(f, " {}", Day::at_or_last(*day))?;
        }
        Ok(())
    }
}

// The calls that a full network has to refuse, and what came of them.
#[derive(Clone, Copy)]
struct Refusals<'a, K>(&'a Crossing<K>);

impl<K> fmt::Display for Refusals<'_, K> {
    ghost output = { λ r. Some (refusals_text r.0.now) };

    fn fmt<W: fmt::Write>(&self, f: &mut fmt::Formatter<W>) -> fmt::Result {
        write!(
            f,
            "  One more: {}\n  A place behind the last: {}\n  The last place first: {}",
            Tried {
                fault: self.0.full,
                otherwise: "accepted"
            },
            Tried {
                fault: self.0.missing,
                otherwise: "accepted"
            },
            Tried {
                fault: self.0.held,
                otherwise: "ready"
            },
        )
    }
}

// Whether a week arrived equal, in words.
#[derive(Clone, Copy)]
struct Arrived(bool);

impl fmt::Display for Arrived {
    ghost output = { λ a. Some (equal_text a.0) };

    fn fmt<W: fmt::Write>(&self, f: &mut fmt::Formatter<W>) -> fmt::Result {
        if self.0 {
            f.write_str("arrived equal")
        } else {
            f.write_str("did not arrive equal")
        }
    }
}

// How many messages there were, and whether they arrived.
#[derive(Clone, Copy)]
struct Counts<'a, K>(&'a Crossing<K>);

impl<K> fmt::Display for Counts<'_, K> {
    ghost output = { λ c. Some (counts_text c.0.now) };

    fn fmt<W: fmt::Write>(&self, f: &mut fmt::Formatter<W>) -> fmt::Result {
        write!(
            f,
            "{} rows posted, {} taken, {}",
            self.0.posted,
            self.0.taken,
            Arrived(self.0.equal)
        )
    }
}

/// What was seen of a week that crossed the network of this name.
#[derive(Clone, Copy)]
pub struct Seen<'a, K> {
    pub network: &'a str,
    pub order: Order,
    pub crossing: &'a Crossing<K>,
}

impl<K> fmt::Display for Seen<'_, K> {
    ghost output = { λ s. Some (crossing_text s.network.now s.order s.crossing.now) };

    fn fmt<W: fmt::Write>(&self, f: &mut fmt::Formatter<W>) -> fmt::Result {
        write!(
            f,
            "Over the {}, {}: {}\n  Taken:{}\n{}",
            self.network,
            self.order,
            Counts(self.crossing),
            Days(&self.crossing.sequence),
            Refusals(self.crossing),
        )
    }
}

/// The report on a week that was accepted and saved twice.
#[derive(Clone, Copy)]
pub struct Report<'a> {
    pub saved: Saved<'a>,
    pub crossings: &'a Crossings<DayRow>,
    /// the verdict on the saves
    pub saves: Verdict,
}

impl fmt::Display for Report<'_> {
    ghost output = { λ r. Some (report_text r.saved.week.now r.saved.first.now r.saved.second.now
        r.crossings.now r.saves) };

    fn fmt<W: fmt::Write>(&self, f: &mut fmt::Formatter<W>) -> fmt::Result {
        let straight = Seen {
            network: "lanes",
            order: Order::OldestFirst,
            crossing: &self.crossings.straight,
        };
        let mixed = Seen {
            network: "lanes",
            order: Order::NewestFirst,
            crossing: &self.crossings.mixed,
        };
        let turned = Seen {
            network: "open bus",
            order: Order::NewestFirst,
            crossing: &self.crossings.turned,
        };
        write!(
            f,
            "{}\n{straight}\n{mixed}\n{turned}\n{}",
            self.saved,
            self.crossings.verdict(self.saves)
        )
    }
}
