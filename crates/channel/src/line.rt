ghost use Rattle.std.specs.Prelude.{◌≡◌, IfOk};
ghost use Rattle.channel.specs.Pairs.{meaning_of, in_order, clear};
ghost use Rattle.channel.specs.Places.{meaning_in};
ghost use Rattle.channel.specs.Stores.{queued};

use crate::link::Link;
use crate::queue::Queue;
use std::alloc::{AllocError, Global};
use std::array;

// The messages from each sender to each receiver, received in the order sent.
pub type Line = Link<Queue>;

impl Line {
    // Nothing waits. All memory that the line needs is taken here.
    pub fn new(heap: Global) -> Result<Line, AllocError>
        ensures { IfOk result (λ l. meaning_in in_order queued l.stores ≡ meaning_of in_order (clear in_order)) }
    {
        let stores = array::try_from_fn(|_| Queue::new(heap))?;
        Ok(Link { stores })
    }
}
