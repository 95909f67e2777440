use network::fault::NetworkFault;
use week::week::Week;

/// In which order the waiting messages are taken.
// An enum and no closure, since it is printed too, and the theorem on a crossing names it.
#[derive(Clone, Copy, PartialEq, Eq, Debug)]
pub enum Order {
    /// always the message at place 0
    OldestFirst,
    /// always the last message that is ready
    NewestFirst,
}

/// What was seen of a week that crossed a network.
#[derive(Drop)]
pub struct Crossing<K> {
    pub arrived: Week<K>,
    /// whether it was compared with what was sent and found equal; the week is there in both cases
    pub equal: bool,
    /// the days in the order in which they were taken, by their numbers in the messages: Monday is 0
    // Numbers and no `Day`s: the theorem on a crossing names what the messages carry, which need be no day.
    pub sequence: [usize; 7],
    pub posted: usize,
    pub taken: usize,
    /// what was refused: one more message than the network holds, a place behind the last, and a
    /// message that is not ready, if the last one is not
    pub full: Option<NetworkFault>,
    pub missing: Option<NetworkFault>,
    pub held: Option<NetworkFault>,
}

/// A week that crossed the networks, each time on a network of its own.
#[derive(Drop)]
pub struct Crossings<K> {
    /// over the lanes, oldest first
    pub straight: Crossing<K>,
    /// over the lanes, newest first
    pub mixed: Crossing<K>,
    /// over the open bus, newest first
    pub turned: Crossing<K>,
}
