ghost use Rattle.std.specs.Prelude.{◌≡◌, ◌≤◌, vec_len, vec_capacity};
ghost use Rattle.network.specs.Waiting.{Made, post_answer, post_after};
ghost use Rattle.std.proofs.Common.{rules};

use crate::fault::NetworkFault;
use crate::message::Message;
use crate::network::Network;
use crate::readiness::Readiness;
use std::alloc::Global;

/// Messages in the order of posting, with the memory for all that can ever wait, and what says which
/// of them are ready. One is added at the end, and taken at any place that is ready.
#[derive(Drop)]
pub struct Queue<C: Copy, R: Copy> {
    items: Vec<Message<C>>,
    // kept beside the vector, whose own capacity may be more than was asked for
    capacity: u16,
    readiness: R,
    ghost few: { vec_len items ≤ capacity },
    ghost reserved: { capacity ≤ vec_capacity items },
    ghost small: { capacity ≤ 65535 },
}

impl<C: Copy, R: Readiness<C>> Queue<C, R> {
    ghost use Rattle.network.specs.Queue.{waiting_in, capacity_of};

    /// An empty network. Its memory is set aside here, so that posting never fails for want of it.
    pub fn new(heap: Global, capacity: u16, readiness: R) -> Result<Queue<C, R>, NetworkFault>
        ensures { Made waiting_in capacity_of capacity result }
    {
        let items = Vec::with_capacity(heap, capacity as usize)?;
        Ok(Queue {
            items,
            capacity,
            readiness,
        })
    }
}

impl<C: Copy, R: Readiness<C>> Network<C> for Queue<C, R> {
    ghost use Rattle.network.specs.Queue.{waiting_in, capacity_of};

    ghost waiting = { waiting_in };

    ghost capacity = { capacity_of };

    ghost ready = { R.ready };

    ghost bounded = { Prim.search rules };

    ghost progress = { Prim.search rules };

    fn capacity(&self) -> u16 {
        self.capacity
    }

    fn count(&self) -> usize {
        self.items.len()
    }

    fn message(&self, place: usize) -> Result<Message<C>, NetworkFault> {
        self.items
            .get(place)
            .copied()
            .ok_or(NetworkFault::NoPlace(place))
    }

    fn is_ready(&self, place: usize) -> Result<bool, NetworkFault> {
        self.message(place).map(|_| R::ready(&self.items, place))
    }

    // The trait's clauses again: the check does not give them where a `Message<C>` is passed by value.
    fn post(&mut self, message: Message<C>) -> Result<(), NetworkFault>
        ensures value { result ≡ post_answer (capacity_of self.old) (waiting_in self.old) }
        ensures after { waiting_in self.new
            ≡ post_after (capacity_of self.old) (waiting_in self.old) message }
        ensures fixed { capacity_of self.new ≡ capacity_of self.old }
    {
        if self.items.len() < self.capacity as usize {
            self.items.push_reserved(message);
            Ok(())
        } else {
            Err(NetworkFault::Full)
        }
    }

    fn take(&mut self, place: usize) -> Result<Message<C>, NetworkFault> {
        if !self.is_ready(place)? {
            return Err(NetworkFault::NotReady(place));
        }
        Ok(self.items.remove(place))
    }
}
