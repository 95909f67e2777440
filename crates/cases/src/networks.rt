ghost use Rattle.std.specs.Prelude.{◌≡◌};
ghost use Rattle.network.specs.Waiting.{post_answer, post_after};
ghost use Rattle.std.proofs.Common.{rules};

use network::fault::NetworkFault;
use network::lanes::Lanes;
use network::message::{Message, MessageKind};
use network::network::Network;
use network::open_bus::OpenBus;
use network::queue::Queue;
use refusal::{Layer, Place, Refusal};
use std::process::Abort;
use std::test::Fail;

// The sender and the receiver of each sample. 4 and 7 are the way back of 0; 1 has its sender
// alone, and 5 its receiver alone.
static LANES: [(usize, usize); 8] = [
    (0, 1),
    (0, 2),
    (0, 1),
    (0, 2),
    (1, 0),
    (2, 1),
    (0, 1),
    (1, 0),
];

// The messages that the cases post. All blocks differ, since a lane is one lane for every block.
fn sample(content: u8) -> Message<u8> {
    let (sender, receiver) = LANES[content as usize % 8];
    Message {
        kind: MessageKind::Put,
        block: 10 + content as usize,
        sender,
        receiver,
        requester: 9,
        content,
    }
}

// An empty network accepts exactly as many messages as its capacity, and one more once one is
// taken.
fn fills<N: Network<u8>>(rt: &impl Abort, network: &mut N, capacity: u16) {
    assert_eq!(rt; network.capacity(), capacity);
    assert_eq!(rt; network.count(), 0);
    assert_eq!(rt; network.take(0), Err(NetworkFault::NoPlace(0)));
    for posted in 0..capacity as usize {
        assert_eq!(rt; network.post(sample((posted % 256) as u8)), Ok(()));
        assert_eq!(rt; network.count(), posted + 1);
    }
    assert_eq!(rt; network.post(sample(0)), Err(NetworkFault::Full));
    assert_eq!(rt; network.count(), capacity as usize);
    if capacity > 0 {
        assert_eq!(rt; network.take(0), Ok(sample(0)));
        assert_eq!(rt; network.post(sample(1)), Ok(()));
        assert_eq!(rt; network.post(sample(2)), Err(NetworkFault::Full));
        let last = network.message(capacity as usize - 1);
        assert_eq!(rt; last, Ok(sample(1)));
    }
    assert_eq!(rt; network.capacity(), capacity);
}

static CAPACITIES: [u16; 4] = [0, 1, 7, 65535];

#[test]
fn capacities(rt: HostRuntime) -> Result<(), Fail> {
    for &capacity in &CAPACITIES {
        fills(
            &rt,
            &mut Queue::new(rt.alloc(), capacity, OpenBus)?,
            capacity,
        );
        fills(&rt, &mut Queue::new(rt.alloc(), capacity, Lanes)?, capacity);
    }
    Ok(())
}

// A take, its answer, what then waits, and what of that is ready; messages are named by their
// contents.
struct Step {
    place: usize,
    answer: Result<u8, NetworkFault>,
    waiting: &'static [u8],
    ready: &'static [u8],
}

fn waits<N: Network<u8>>(rt: &impl Abort, network: &N, step: &Step) {
    assert_eq!(rt; network.count(), step.waiting.len());
    for (place, &content) in step.waiting.iter().enumerate() {
        assert_eq!(rt; network.message(place), Ok(sample(content)));
        assert_eq!(rt; network.is_ready(place), Ok(step.ready.contains(&content)));
    }
}

// A missing place is missing to every call that names it.
fn takes<N: Network<u8>>(rt: &impl Abort, network: &mut N, step: &Step) {
    let place = step.place;
    let expected = step.answer.map(sample);
    if expected == Err(NetworkFault::NoPlace(place)) {
        assert_eq!(rt; network.message(place), expected);
        assert_eq!(rt; network.is_ready(place), Err(NetworkFault::NoPlace(place)));
    }
    assert_eq!(rt; network.take(place), expected);
    waits(rt, network, step);
}

// Posts the samples whose contents are below a number.
fn posts<N: Network<u8>>(rt: &impl Abort, network: &mut N, samples: u8) {
    for content in 0..samples {
        assert_eq!(rt; network.post(sample(content)), Ok(()));
    }
}

// Each starts from five samples on the open bus.
static OPEN: [Step; 5] = [
    Step {
        place: 0,
        answer: Ok(0),
        waiting: &[1, 2, 3, 4],
        ready: &[1, 2, 3, 4],
    },
    Step {
        place: 2,
        answer: Ok(2),
        waiting: &[0, 1, 3, 4],
        ready: &[0, 1, 3, 4],
    },
    Step {
        place: 4,
        answer: Ok(4),
        waiting: &[0, 1, 2, 3],
        ready: &[0, 1, 2, 3],
    },
    Step {
        place: 5,
        answer: Err(NetworkFault::NoPlace(5)),
        waiting: &[0, 1, 2, 3, 4],
        ready: &[0, 1, 2, 3, 4],
    },
    Step {
        place: usize::MAX,
        answer: Err(NetworkFault::NoPlace(usize::MAX)),
        waiting: &[0, 1, 2, 3, 4],
        ready: &[0, 1, 2, 3, 4],
    },
];

#[test]
fn open_bus(rt: HostRuntime) -> Result<(), Fail> {
    for step in &OPEN {
        let mut network = Queue::new(rt.alloc(), 5, OpenBus)?;
        posts(&rt, &mut network, 5);
        takes(&rt, &mut network, step);
    }
    Ok(())
}

// Each goes on from the one before; the first starts from all eight samples.
static ALONG: [Step; 14] = [
    Step {
        place: 2,
        answer: Err(NetworkFault::NotReady(2)),
        waiting: &[0, 1, 2, 3, 4, 5, 6, 7],
        ready: &[0, 1, 4, 5],
    },
    Step {
        place: 6,
        answer: Err(NetworkFault::NotReady(6)),
        waiting: &[0, 1, 2, 3, 4, 5, 6, 7],
        ready: &[0, 1, 4, 5],
    },
    Step {
        place: 8,
        answer: Err(NetworkFault::NoPlace(8)),
        waiting: &[0, 1, 2, 3, 4, 5, 6, 7],
        ready: &[0, 1, 4, 5],
    },
    Step {
        place: 0,
        answer: Ok(0),
        waiting: &[1, 2, 3, 4, 5, 6, 7],
        ready: &[1, 2, 4, 5],
    },
    Step {
        place: 5,
        answer: Err(NetworkFault::NotReady(5)),
        waiting: &[1, 2, 3, 4, 5, 6, 7],
        ready: &[1, 2, 4, 5],
    },
    Step {
        place: 3,
        answer: Ok(4),
        waiting: &[1, 2, 3, 5, 6, 7],
        ready: &[1, 2, 5, 7],
    },
    Step {
        place: 1,
        answer: Ok(2),
        waiting: &[1, 3, 5, 6, 7],
        ready: &[1, 5, 6, 7],
    },
    Step {
        place: 1,
        answer: Err(NetworkFault::NotReady(1)),
        waiting: &[1, 3, 5, 6, 7],
        ready: &[1, 5, 6, 7],
    },
    Step {
        place: 0,
        answer: Ok(1),
        waiting: &[3, 5, 6, 7],
        ready: &[3, 5, 6, 7],
    },
    Step {
        place: 3,
        answer: Ok(7),
        waiting: &[3, 5, 6],
        ready: &[3, 5, 6],
    },
    Step {
        place: 0,
        answer: Ok(3),
        waiting: &[5, 6],
        ready: &[5, 6],
    },
    Step {
        place: 1,
        answer: Ok(6),
        waiting: &[5],
        ready: &[5],
    },
    Step {
        place: 0,
        answer: Ok(5),
        waiting: &[],
        ready: &[],
    },
    Step {
        place: 0,
        answer: Err(NetworkFault::NoPlace(0)),
        waiting: &[],
        ready: &[],
    },
];

fn keeps_lanes<N: Network<u8>>(rt: &impl Abort, network: &mut N) {
    posts(rt, network, 8);
    for step in &ALONG {
        takes(rt, network, step);
    }
}

#[test]
fn lanes(rt: HostRuntime) -> Result<(), Fail> {
    keeps_lanes(&rt, &mut Queue::new(rt.alloc(), 8, Lanes)?);
    Ok(())
}

struct Refused {
    fault: NetworkFault,
    number: u8,
    place: Place,
}

// Want of memory is outside the table of refusals, so its number is 0.
static REFUSED: [Refused; 6] = [
    Refused {
        fault: NetworkFault::NoPlace(0),
        number: 15,
        place: Place::Waiting(0),
    },
    Refused {
        fault: NetworkFault::NoPlace(usize::MAX),
        number: 15,
        place: Place::Waiting(usize::MAX),
    },
    Refused {
        fault: NetworkFault::NotReady(1),
        number: 16,
        place: Place::Waiting(1),
    },
    Refused {
        fault: NetworkFault::NotReady(65534),
        number: 16,
        place: Place::Waiting(65534),
    },
    Refused {
        fault: NetworkFault::Full,
        number: 17,
        place: Place::Zero,
    },
    Refused {
        fault: NetworkFault::NoMemory,
        number: 0,
        place: Place::Zero,
    },
];

#[test]
fn refusals(rt: HostRuntime) {
    for case in &REFUSED {
        let line = Refusal {
            layer: Layer::Network,
            number: case.number,
            place: case.place,
        };
        assert_eq!(rt; Refusal::from(case.fault), line);
    }
}

// Hands every call on to the network below.
#[derive(Drop)]
struct Over<N> {
    below: N,
}

impl<C: Copy, N: Network<C>> Network<C> for Over<N> {
    ghost waiting = { λ n. N.waiting n.below };

    ghost capacity = { λ n. N.capacity n.below };

    ghost ready = { N.ready };

    ghost bounded = { Prim.search rules };

    ghost progress = { Prim.search rules };

    fn capacity(&self) -> u16 {
        self.below.capacity()
    }

    fn count(&self) -> usize {
        self.below.count()
    }

    fn message(&self, place: usize) -> Result<Message<C>, NetworkFault> {
        self.below.message(place)
    }

    fn is_ready(&self, place: usize) -> Result<bool, NetworkFault> {
        self.below.is_ready(place)
    }

    // The trait's clauses again: the check does not give them where a `Message<C>` is passed by value.
    fn post(&mut self, message: Message<C>) -> Result<(), NetworkFault>
        ensures value { result ≡ post_answer (N.capacity self.old.below) (N.waiting self.old.below) }
        ensures after { N.waiting self.new.below
            ≡ post_after (N.capacity self.old.below) (N.waiting self.old.below) message }
        ensures fixed { N.capacity self.new.below ≡ N.capacity self.old.below }
    {
        self.below.post(message)
    }

    fn take(&mut self, place: usize) -> Result<Message<C>, NetworkFault> {
        self.below.take(place)
    }
}

// Two layers over the lanes behave as the lanes do.
#[test]
fn layers(rt: HostRuntime) -> Result<(), Fail> {
    let mut network = Over {
        below: Over {
            below: Queue::new(rt.alloc(), 8, Lanes)?,
        },
    };
    keeps_lanes(&rt, &mut network);
    fills(&rt, &mut network, 8);
    Ok(())
}

// A fault of a layer above, with the network's inside it.
#[derive(Clone, Copy, PartialEq, Eq, Debug)]
enum HigherFault {
    Network(NetworkFault),
}

impl From<NetworkFault> for HigherFault {
    fn from(e: NetworkFault) -> HigherFault {
        HigherFault::Network(e)
    }
}

fn exchange<N: Network<u8>>(network: &mut N, place: usize) -> Result<u8, HigherFault> {
    let taken = network.take(place)?;
    network.post(taken)?;
    network.post(sample(1))?;
    Ok(taken.content)
}

// A refusal comes up whole through `?`, and says the same there.
#[test]
fn carried_up(rt: HostRuntime) -> Result<(), Fail> {
    let mut network = Queue::new(rt.alloc(), 1, Lanes)?;
    posts(&rt, &mut network, 1);
    let missing = HigherFault::Network(NetworkFault::NoPlace(4));
    assert_eq!(rt; exchange(&mut network, 4), Err(missing));
    let full = HigherFault::Network(NetworkFault::Full);
    assert_eq!(rt; exchange(&mut network, 0), Err(full));
    let HigherFault::Network(fault) = missing;
    let line = Refusal {
        layer: Layer::Network,
        number: 15,
        place: Place::Waiting(4),
    };
    assert_eq!(rt; Refusal::from(fault), line);
    Ok(())
}
