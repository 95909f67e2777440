ghost use Rattle.std.specs.Prelude.{◌≡◌, Some};
ghost use Rattle.std.specs.Process.{exit_status};
ghost use Rattle.week.specs.Report.{verdict_text};
ghost use Rattle.week.specs.Release.{status_of};

use crate::week::Week;
use std::fmt;
use std::process::ExitCode;

/// What the release check says of a build.
#[derive(Clone, Copy, PartialEq, Eq, Debug)]
pub enum Verdict {
    MayLeave,
    Stays,
}

/// A week that was accepted and saved twice, with what is said of the saves.
#[derive(Drop)]
pub struct Checked<K> {
    pub week: Week<K>,
    pub verdict: Verdict,
}

impl Verdict {
    /// Beside `Display`, since it cannot fail.
    pub fn words(self) -> &'static str
        ensures { result.now ≡ verdict_text self }
    {
        match self {
            Verdict::MayLeave => "Verdict: the build may leave; both saves are alike.",
            Verdict::Stays => "Verdict: the build stays.",
        }
    }
}

impl fmt::Display for Verdict {
    ghost output = { λ verdict. Some (verdict_text verdict) };

    fn fmt<W: fmt::Write>(&self, f: &mut fmt::Formatter<W>) -> fmt::Result {
        f.write_str(self.words())
    }
}

// The status with which a program ends that says this verdict.
impl From<Verdict> for ExitCode {
    ghost from_gives = { λ verdict code. exit_status code ≡ status_of verdict };

    fn from(verdict: Verdict) -> ExitCode {
        match verdict {
            Verdict::MayLeave => ExitCode::SUCCESS,
            Verdict::Stays => ExitCode::FAILURE,
        }
    }
}
