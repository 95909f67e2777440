ghost use Rattle.std.specs.Prelude.{◌≡◌};
ghost use Rattle.kinds.specs.declared.fault.ContentFault.TheVariants.{WrongLength};
ghost use Rattle.kinds.specs.Fault.{is_length, refusal_of};

use refusal::{Layer, Place, Refusal};
use std::array::TryFromSliceError;

/// Why a kind refused: the slice is not as long as the kind is wide, or its bytes stand for no content.
#[derive(Clone, Copy, PartialEq, Eq, Debug)]
pub enum ContentFault {
    WrongLength,
    BadContent,
}

// A slice that is no array of the kind's width has a wrong length.
impl From<TryFromSliceError> for ContentFault {
    ghost from_gives = { λ _ r. r ≡ WrongLength };

    fn from(_e: TryFromSliceError) -> ContentFault {
        Self::WrongLength
    }
}

// The fault's line in the table of refusals.
impl From<ContentFault> for Refusal {
    ghost from_gives = { λ e r. r ≡ refusal_of e };

    fn from(e: ContentFault) -> Refusal {
        match e {
            ContentFault::WrongLength | ContentFault::BadContent => Refusal {
                layer: Layer::Kind,
                number: 21,
                place: Place::Zero,
            },
        }
    }
}

impl ContentFault {
    /// Whether the slice's length was wrong, whatever its bytes were.
    pub fn is_length(&self) -> bool
        ensures { result ≡ is_length self.now }
    {
        matches!(self, ContentFault::WrongLength)
    }
}
