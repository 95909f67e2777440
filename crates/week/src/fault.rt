ghost use Rattle.std.specs.Prelude.{◌≡◌};
ghost use Rattle.week.specs.declared.fault.CheckFault.TheVariants.{Day as DayFault, Save as SaveFault};
ghost use Rattle.week.specs.Fault.{content_of, refusal_of};

use crate::day::RefusedDay;
use kinds::fault::ContentFault;
use refusal::Refusal;

/// Why a week was not checked: a day's bytes are refused, or a slice for a save is not as long as the week.
#[derive(Clone, Copy, PartialEq, Eq, Debug)]
pub enum CheckFault {
    Day(RefusedDay),
    Save(ContentFault),
}

// Both by hand, as derived conversions would not say which fault a `?` makes.
impl From<RefusedDay> for CheckFault {
    ghost from_gives = { λ e r. r ≡ DayFault e };

    fn from(e: RefusedDay) -> CheckFault {
        CheckFault::Day(e)
    }
}

impl From<ContentFault> for CheckFault {
    ghost from_gives = { λ e r. r ≡ SaveFault e };

    fn from(e: ContentFault) -> CheckFault {
        CheckFault::Save(e)
    }
}

impl CheckFault {
    /// The kind's own fault inside.
    pub fn content(&self) -> ContentFault
        ensures { result ≡ content_of self.now }
    {
        match self {
            CheckFault::Day(refused) => refused.fault,
            CheckFault::Save(fault) => *fault,
        }
    }
}

// The fault's line in the table of refusals, which is the kind's.
impl From<CheckFault> for Refusal {
    ghost from_gives = { λ e r. r ≡ refusal_of e };

    fn from(e: CheckFault) -> Refusal {
        e.content().into()
    }
}
