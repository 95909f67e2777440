ghost use Rattle.std.specs.Prelude.{◌≡◌, ◌≤◌, []};
ghost use Rattle.crossing.specs.Crossing.{day_message, week_messages};

use network::message::{Message, MessageKind};
use network::network::Network;
use week::week::Week;

// A day of the week as a message: from board 0, to boards 1 and 2 in turn.
pub(crate) fn day_message<K: Copy>(day: usize, content: K) -> Message<K>
    ensures { result ≡ day_message day content }
{
    let board = 1 + day % 2;
    Message {
        kind: MessageKind::Put,
        block: day,
        sender: 0,
        receiver: board,
        requester: board,
        content,
    }
}

// Posts the seven days, and answers how many were accepted.
pub(crate) fn send<K: Copy, N: Network<K>>(network: &mut N, week: &Week<K>) -> usize
    requires empty { N.waiting network.old ≡ [] }
    requires room { 7 ≤ N.capacity network.old }
    ensures value { result ≡ 7 }
    ensures after { N.waiting network.new ≡ week_messages 0 week.now.days }
    ensures fixed { N.capacity network.new ≡ N.capacity network.old }
{
    // A loop and no count of a chain: the check would not know what a closure posted.
    let mut posted = 0;
    for (day, content) in week.days.iter().enumerate() {
        if network.post(day_message(day, *content)).is_ok() {
            posted += 1;
        }
    }
    posted
}
