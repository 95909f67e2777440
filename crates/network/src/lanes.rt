ghost use Rattle.std.specs.Prelude.{◌≡◌};
ghost use Rattle.network.specs.Lanes.{lane_free, is_first_on_lane};
ghost use Rattle.std.proofs.Common.{rules};

use crate::message::Message;
use crate::readiness::Readiness;

/// On the lanes a message can be taken once no earlier one with the same sender and receiver waits.
#[derive(Clone, Copy)]
pub struct Lanes;

// Whether none of the earlier messages is on the message's lane.
fn lane_free<C: Copy>(message: &Message<C>, earlier: &[Message<C>]) -> bool
    ensures { result ≡ lane_free message.now earlier.now }
{
    earlier.iter().all(|other| !other.shares_lane(message))
}

impl<C: Copy> Readiness<C> for Lanes {
    ghost ready = { is_first_on_lane };

    ghost progress = { Prim.search rules };

    fn ready(waiting: &[Message<C>], place: usize) -> bool {
        waiting
            .get(place)
            .is_some_and(|message| lane_free(message, &waiting[..place]))
    }
}
