ghost use Rattle.std.specs.Prelude.{◌≡◌, ℕ, ◌<◌, ◌≤◌, List, length, Some, None, Option, ◌≢◌, ◌↔◌, slice_index};
ghost use Rattle.kinds.specs.declared.fault.ContentFault.TheVariants.{WrongLength};
ghost use Rattle.kinds.specs.declared.fault.ContentFault.{ContentFault as Fault};
ghost use Rattle.kinds.specs.Kind.{Reads, Writes};

use crate::fault::ContentFault;

/// A kind of content, for instance one day of a heating schedule. Code over any kind is proved from
/// this trait alone.
pub trait Kind: Copy {
    // how many bytes a content takes
    ghost width: { ℕ };

    // the bytes that a content is written as: its meaning
    ghost bytes: { Self → List ℕ };

    // the fault with which bytes are refused, or None where they are accepted
    ghost fault: { List ℕ → Option Fault };

    fn width() -> usize
        ensures { result ≡ width };

    /// The content that the bytes stand for.
    fn read(from: &[u8]) -> Result<Self, ContentFault>
        ensures { Reads bytes fault from.now result };

    /// Writes the content's bytes over the whole slice; one that is not as long as the kind is wide stays as it was.
    fn write(&self, to: &mut [u8]) -> Result<(), ContentFault>
        ensures { Writes width (bytes self.now) to.old to.new result };

    ghost bounded: { (1 ≤ width) × (width ≤ 64) };

    ghost sized: { (x : Self) → length (bytes x) ≡ width };

    ghost octets: { (x : Self) (k : ℕ) → slice_index (bytes x) k < 256 };

    // two contents are never written alike
    ghost injective: { (x y : Self) → bytes x ≡ bytes y → x ≡ y };

    // what is written for a content is accepted
    ghost readable: { (x : Self) → fault (bytes x) ≡ None };

    // accepted bytes are those of some content
    ghost complete: { (bs : List ℕ) → ((k : ℕ) → slice_index bs k < 256) → fault bs ≡ None → (x : Self) × (bytes x ≡ bs) };

    // a wrong length is refused as such, whatever the bytes are, and nothing else is
    ghost measured: { (bs : List ℕ) → (length bs ≢ width) ↔ (fault bs ≡ Some WrongLength) };
}

// Writes the bytes of a content over the whole slice; one of another length stays as it was.
pub(crate) fn write_whole<const N: usize>(
    bytes: &[u8; N],
    to: &mut [u8],
) -> Result<(), ContentFault>
    ensures { Writes N bytes.now to.old to.new result }
{
    if to.len() != N {
        return Err(ContentFault::WrongLength);
    }
    to.copy_from_slice(bytes);
    Ok(())
}
