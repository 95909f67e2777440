ghost use Rattle.std.specs.Prelude.{◌≡◌, ℕ, Bool, List};
ghost use Rattle.network.specs.declared.message.Message.{Message as Sent};
ghost use Rattle.network.specs.Waiting.{Progress};

use crate::message::Message;

/// All in which one network differs from another: which of the waiting messages can be taken.
pub trait Readiness<C>: Copy {
    ghost ready: { List (Sent C) → ℕ → Bool };

    fn ready(waiting: &[Message<C>], place: usize) -> bool
        ensures { result ≡ ready waiting.now place };

    ghost progress: { Progress ready };
}
