ghost use Rattle.week.specs.Release.{Checks};

use crate::compare::judge;
use crate::fault::CheckFault;
use crate::verdict::Checked;
use crate::week::Week;
use kinds::fault::ContentFault;
use kinds::kind::Kind;

/// The release check: loads a week, saves it twice, and compares the saves. A refused week saves nothing.
// The slices for the saves are two parameters and no struct, as they are the caller's, lent to be written.
pub fn check_week<K: Kind>(
    bytes: &[u8],
    first: &mut [u8],
    second: &mut [u8],
) -> Result<Checked<K>, CheckFault>
    ensures { Checks K.Kind bytes.now first.old second.old first.new second.new result }
{
    let week = Week::<K>::load(bytes)?;
    let size = Week::<K>::bytes_long();
    if first.len() != size || second.len() != size {
        return Err(CheckFault::Save(ContentFault::WrongLength));
    }
    week.save(first)?;
    week.save(second)?;
    let verdict = judge(first, second);
    Ok(Checked { week, verdict })
}
