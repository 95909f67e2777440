ghost use Rattle.std.specs.Prelude.{◌≡◌};
ghost use Rattle.network.specs.declared.fault.NetworkFault.TheVariants.{NoMemory};
ghost use Rattle.network.specs.Fault.{refusal_of};

use refusal::{Layer, Place, Refusal};
use std::alloc::AllocError;

/// Why a network refused.
#[derive(Clone, Copy, PartialEq, Eq, Debug)]
pub enum NetworkFault {
    /// no message waits at this place
    NoPlace(usize),
    /// the message at this place is not ready
    NotReady(usize),
    /// as many messages wait as the network holds
    Full,
    /// the network could not be made for want of memory
    NoMemory,
}

// By hand, as a derived conversion would not say which fault a `?` makes.
impl From<AllocError> for NetworkFault {
    ghost from_gives = { λ _ fault. fault ≡ NoMemory };

    fn from(_error: AllocError) -> NetworkFault {
        Self::NoMemory
    }
}

// The fault's line in the table of refusals.
impl From<NetworkFault> for Refusal {
    ghost from_gives = { λ fault refusal. refusal ≡ refusal_of fault };

    fn from(fault: NetworkFault) -> Refusal {
        let (number, place) = match fault {
            NetworkFault::NoPlace(at) => (15, Place::Waiting(at)),
            NetworkFault::NotReady(at) => (16, Place::Waiting(at)),
            NetworkFault::Full => (17, Place::Zero),
            NetworkFault::NoMemory => (0, Place::Zero),
        };
        Refusal {
            layer: Layer::Network,
            number,
            place,
        }
    }
}
