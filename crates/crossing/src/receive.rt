ghost use Rattle.std.specs.Prelude.{◌≡◌, ◌-◌, ◌<◌, [], length, remove, slice_get, slice_set};
ghost use Rattle.std.specs.Option.{SomeIff};
ghost use Rattle.crossing.specs.Crossing.{week_messages, contents, last_ready, next_place, arrivals};

use crate::crossing::Order;
use network::message::Message;
use network::network::Network;

// The last place that is ready. While anything waits there is one, by the law of networks.
fn last_ready<K: Copy, N: Network<K>>(network: &N) -> Option<usize>
    ensures { let messages = N.waiting network.now in
        SomeIff result (0 < length messages) (last_ready (N.ready messages) (length messages - 1)) }
{
    (0..network.count()).rfind(|&place| network.is_ready(place).unwrap_or(false))
}

// The place that is taken next, while anything waits.
fn next_place<K: Copy, N: Network<K>>(network: &N, order: Order) -> Option<usize>
    ensures { let messages = N.waiting network.now in
        SomeIff result (0 < length messages) (next_place order N.ready messages) }
{
    match order {
        Order::OldestFirst => (network.count() > 0).then_some(0),
        Order::NewestFirst => last_ready(network),
    }
}

// The message that is taken next, while any waits. The law of networks says that it is not refused.
fn take_next<K: Copy, N: Network<K>>(network: &mut N, order: Order) -> Option<Message<K>>
    ensures value { let messages = N.waiting network.old in
        result ≡ slice_get messages (next_place order N.ready messages) }
    ensures after { let messages = N.waiting network.old in
        N.waiting network.new ≡ remove messages (next_place order N.ready messages) }
{
    network.take(next_place(network, order)?).ok()
}

// Puts a message's content at its day. A function of its own, since the check knows of an array of
// any content that it is small enough to be indexed only where it is behind a reference.
fn put<K: Copy>(days: &mut [K; 7], message: &Message<K>)
    requires { message.now.block < 7 }
    ensures { days.new ≡ slice_set days.old message.now.block message.now.content }
{
    days[message.block] = message.content;
}

// Takes all seven messages, and answers each content at its day and the order in which the days
// were taken. Until its message comes, a day is blank.
pub(crate) fn receive<K: Copy, N: Network<K>>(
    network: &mut N,
    order: Order,
    blank: K,
) -> ([K; 7], [usize; 7])
    requires seven { length (N.waiting network.old) ≡ 7 }
    requires sent { N.waiting network.old ≡ week_messages 0 (contents (N.waiting network.old)) }
    ensures days { result.0 ≡ contents (N.waiting network.old) }
    ensures order { let messages = N.waiting network.old in
        result.1 ≡ arrivals order N.ready (length messages) messages }
    ensures after { N.waiting network.new ≡ [] }
{
    let mut days = [blank; 7];
    let mut sequence = [0; 7];
    for taken in &mut sequence {
        if let Some(message) = take_next(network, order) {
            put(&mut days, &message);
            *taken = message.block;
        }
    }
    (days, sequence)
}
