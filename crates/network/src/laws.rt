// The laws of networks, each as a contract. A law over whole runs stands on a function that does
// nothing: the README can name a contract as a promise, and code that calls the function can cite it.
ghost use Rattle.std.specs.Prelude.{◌<◌, ◌↔◌, IsTrue, length};
ghost use Rattle.network.specs.declared.message.Message.{Message as Sent};
ghost use Rattle.network.specs.Lanes.{NoEarlier};
ghost use Rattle.network.specs.Runs.{NothingLost, LanesKeepOrder};
ghost use Rattle.network.specs.Waiting.{StartsEmpty};

use crate::fault::NetworkFault;
use crate::lanes::Lanes;
use crate::message::Message;
use crate::network::Network;
use crate::open_bus::OpenBus;
use crate::queue::Queue;
use crate::readiness::Readiness;
use std::alloc::Global;

/// On the open bus every place of the list is ready.
pub fn every_place_ready<C: Copy>(waiting: &[Message<C>], place: usize) -> bool
    ensures { place < length waiting.now → IsTrue result }
{
    OpenBus::ready(waiting, place)
}

/// On the lanes a place of the list is ready exactly if no earlier message has the same sender and
/// receiver.
#[tactic(auto, using(crate::proofs::Order::lane_order))]
pub fn no_earlier_on_lane<C: Copy>(waiting: &[Message<C>], place: usize) -> bool
    ensures { place < length waiting.now → (IsTrue result ↔ NoEarlier waiting.now place) }
{
    Lanes::ready(waiting, place)
}

/// A new network, seen through the calls of networks, has the capacity that was asked for and
/// nothing waits.
pub fn starts_empty<C: Copy, R: Readiness<C>>(
    heap: Global,
    capacity: u16,
    readiness: R,
) -> Result<(u16, usize), NetworkFault>
    ensures { StartsEmpty capacity result }
{
    let network = Queue::<C, R>::new(heap, capacity, readiness)?;
    Ok((network.capacity(), network.count()))
}

/// Over any calls of post and take, on every network: what was posted is what was taken and what
/// waits, and no more waits than the capacity.
#[tactic(auto, using(crate::proofs::Runs::balanced, crate::proofs::Runs::within))]
pub fn nothing_is_lost<C: Copy>()
    ensures { NothingLost (Sent C) }
{}

/// Over any calls of post and take, on the lanes: messages from one board to another are taken in
/// the order of posting.
#[tactic(auto, using(crate::proofs::Runs::lanes_keep_order))]
pub fn lanes_keep_order<C: Copy>()
    ensures { LanesKeepOrder C }
{}
