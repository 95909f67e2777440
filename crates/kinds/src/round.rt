ghost use Rattle.kinds.specs.Law.{RoundTrips};

use crate::fault::ContentFault;
use crate::kind::Kind;

/// Writes a content over the slice and reads it back from there.
pub fn round_trip<K: Kind>(x: &K, to: &mut [u8]) -> Result<K, ContentFault>
    ensures { RoundTrips K.Kind x.now to.old to.new result }
{
    x.write(to)?;
    K::read(to)
}
