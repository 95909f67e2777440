ghost use Rattle.std.specs.Prelude.{true};
ghost use Rattle.std.proofs.Common.{rules};

use crate::message::Message;
use crate::readiness::Readiness;

/// On the open bus every waiting message can be taken.
#[derive(Clone, Copy)]
pub struct OpenBus;

impl<C: Copy> Readiness<C> for OpenBus {
    ghost ready = { λ ms k. true };

    ghost progress = { Prim.search rules };

    fn ready(_waiting: &[Message<C>], _place: usize) -> bool {
        true
    }
}
