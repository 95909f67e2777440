ghost use Rattle.std.specs.Prelude.{◌≡◌, []};
ghost use Rattle.std.specs.Result.{result_err};
ghost use Rattle.network.specs.Waiting.{take_answer};
ghost use Rattle.crossing.specs.Crossing.{Crosses, CrossesOr, CrossesAll, verdict_after};

use crate::compare::same_week;
use crate::crossing::{Crossing, Crossings, Order};
use crate::receive::receive;
use crate::send::{day_message, send};
use kinds::kind::Kind;
use network::fault::NetworkFault;
use network::lanes::Lanes;
use network::network::Network;
use network::open_bus::OpenBus;
use network::queue::Queue;
use network::readiness::Readiness;
use std::alloc::Global;
use week::verdict::Verdict;
use week::week::Week;

// What taking this place gives where it is refused. A message that is ready stays.
fn try_taking<K: Copy, N: Network<K>>(network: &mut N, place: usize) -> Option<NetworkFault>
    ensures value { result ≡ result_err (take_answer N.ready (N.waiting network.old) place) }
    ensures after { N.waiting network.new ≡ N.waiting network.old }
{
    match network.is_ready(place) {
        Ok(true) => None,
        _ => network.take(place).err(),
    }
}

// Sends the week over an empty network that holds seven messages, tries what must be refused, and
// takes all messages off it again.
fn cross_over<K: Kind, N: Network<K>>(network: &mut N, week: &Week<K>, order: Order) -> Crossing<K>
    requires empty { N.waiting network.old ≡ [] }
    requires room { N.capacity network.old ≡ 7 }
    ensures { Crosses order N.ready week.now.days result }
{
    let posted = send(network, week);
    let monday = week.days[0];
    let full = network.post(day_message(0, monday)).err();
    let missing = try_taking(network, posted);
    let held = try_taking(network, 6);
    let (days, sequence) = receive(network, order, monday);
    let arrived = Week { days };
    Crossing {
        equal: same_week(week, &arrived),
        arrived,
        sequence,
        posted,
        taken: posted - network.count(),
        full,
        missing,
        held,
    }
}

/// Sends a week over a network of its own, and says what was seen.
pub fn cross<K: Kind, R: Readiness<K>>(
    heap: Global,
    readiness: R,
    week: &Week<K>,
    order: Order,
) -> Result<Crossing<K>, NetworkFault>
    ensures { CrossesOr order R.ready week.now.days result }
{
    let mut network = Queue::new(heap, 7, readiness)?;
    Ok(cross_over(&mut network, week, order))
}

/// Sends a week over the lanes in both orders, and over the open bus, the newest first.
pub fn cross_all<K: Kind>(heap: Global, week: &Week<K>) -> Result<Crossings<K>, NetworkFault>
    ensures { CrossesAll week.now.days result }
{
    let straight = cross(heap, Lanes, week, Order::OldestFirst)?;
    let mixed = cross(heap, Lanes, week, Order::NewestFirst)?;
    let turned = cross(heap, OpenBus, week, Order::NewestFirst)?;
    Ok(Crossings {
        straight,
        mixed,
        turned,
    })
}

impl<K> Crossings<K> {
    /// The verdict on a build, given that on its saves: it stays if a week did not arrive equal.
    pub fn verdict(&self, saves: Verdict) -> Verdict
        ensures { result ≡ verdict_after saves self.now }
    {
        if self.straight.equal && self.mixed.equal && self.turned.equal {
            saves
        } else {
            Verdict::Stays
        }
    }
}
