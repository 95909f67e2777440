ghost use Rattle.std.specs.Prelude.{◌≡◌, ◌↔◌, IsTrue};
ghost use Rattle.week.specs.Release.{Judges};

use crate::verdict::Verdict;

/// Whether two saves are alike: exactly if they hold the same bytes.
pub fn alike(first: &[u8], second: &[u8]) -> bool
    ensures { IsTrue result ↔ (first.now ≡ second.now) }
{
    first == second
}

/// A build may leave exactly if its two saves are alike.
pub fn judge(first: &[u8], second: &[u8]) -> Verdict
    ensures { Judges first.now second.now result }
{
    if alike(first, second) {
        Verdict::MayLeave
    } else {
        Verdict::Stays
    }
}
