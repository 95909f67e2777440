ghost use Rattle.std.specs.Prelude.{◌≡◌, ℕ, ◌≤◌, Bool, List, length};
ghost use Rattle.network.specs.declared.message.Message.{Message as Sent};
ghost use Rattle.network.specs.Waiting.{Progress, message_at, ready_at, post_answer, post_after, take_answer, take_after};

use crate::fault::NetworkFault;
use crate::message::Message;

/// What carries messages with contents of type C. Code over any network is proved from this trait
/// alone, and a layer over a network can be one too.
pub trait Network<C> {
    // the messages that wait, in the order of posting
    ghost waiting: { Self → List (Sent C) };

    // how many messages can wait at once
    ghost capacity: { Self → ℕ };

    // which places can be taken, given all that waits
    ghost ready: { List (Sent C) → ℕ → Bool };

    fn capacity(&self) -> u16
        ensures { result ≡ capacity self.now };

    /// The number of messages that wait.
    fn count(&self) -> usize
        ensures { result ≡ length (waiting self.now) };

    fn message(&self, place: usize) -> Result<Message<C>, NetworkFault>
        ensures { result ≡ message_at (waiting self.now) place };

    fn is_ready(&self, place: usize) -> Result<bool, NetworkFault>
        ensures { result ≡ ready_at ready (waiting self.now) place };

    /// Lets a message wait behind all others.
    fn post(&mut self, message: Message<C>) -> Result<(), NetworkFault>
        ensures value { result ≡ post_answer (capacity self.old) (waiting self.old) }
        ensures after { waiting self.new
            ≡ post_after (capacity self.old) (waiting self.old) message }
        ensures fixed { capacity self.new ≡ capacity self.old };

    /// Takes the message at a place off the network.
    fn take(&mut self, place: usize) -> Result<Message<C>, NetworkFault>
        ensures value { result ≡ take_answer ready (waiting self.old) place }
        ensures after { waiting self.new ≡ take_after ready (waiting self.old) place }
        ensures fixed { capacity self.new ≡ capacity self.old };

    ghost bounded: { (n : Self) → (length (waiting n) ≤ capacity n) × (capacity n ≤ 65535) };

    ghost progress: { Progress ready };
}
