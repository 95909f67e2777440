ghost use Rattle.std.specs.Prelude.{◌≡◌};
ghost use Rattle.network.specs.Lanes.{same_lane};

/// What a message asks or tells. The home of a block is the board that keeps its memory; the owner
/// is the board that was granted the writable copy.
#[derive(Clone, Copy, PartialEq, Eq, Debug)]
pub enum MessageKind {
    /// a read request
    Get,
    /// a write request
    GetX,
    /// a readable copy
    Put,
    /// the writable copy
    PutX,
    /// a request is turned away
    Nak,
    /// to the home: a request that it passed on was turned away
    NakC,
    /// an invalidation: a readable copy must go
    Inv,
    /// to the home: an invalidation was obeyed
    InvAck,
    /// to the home: a write-back of the writable copy, which its owner gave up
    Wb,
    /// to the home: a write-back of the writable copy, which its owner now shares
    ShWb,
    /// to the home: the writable copy went to the requester
    FAck,
}

/// Blocks and boards are numbers from 0. The requester is the board whose request set the exchange
/// off; a write-back that no request set off names its sender.
#[derive(Clone, Copy, PartialEq, Eq, Debug)]
pub struct Message<C> {
    pub kind: MessageKind,
    pub block: usize,
    pub sender: usize,
    pub receiver: usize,
    pub requester: usize,
    pub content: C,
}

impl<C: Copy> Message<C> {
    /// Whether both have the same sender and the same receiver.
    pub fn shares_lane(&self, other: &Message<C>) -> bool
        ensures { result ≡ same_lane self.now other.now }
    {
        self.sender == other.sender && self.receiver == other.receiver
    }
}
