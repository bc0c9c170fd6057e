ghost use Rattle.std.specs.Prelude.{◌≡◌, ◌≤◌, [], IfOk};
ghost use Rattle.std.specs.VecDeque.{deque_capacity};
ghost use Rattle.channel.specs.Pairs.{in_order};
ghost use Rattle.channel.specs.WaysLemmas.{in_order_way};

use crate::store::Store;
use acts::{Act, Letter};
use std::alloc::{AllocError, Global};
use std::collections::VecDeque;

// Names that are received in the order sent, with memory for 32.
#[derive(Drop)]
pub struct Queue {
    names: VecDeque<u8>,
    ghost room: { 32 ≤ deque_capacity names },
}

impl Queue {
    // Nothing waits.
    pub(crate) fn new(heap: Global) -> Result<Queue, AllocError>
        ensures { IfOk result (λ q. q.names.items ≡ []) }
    {
        let names = VecDeque::with_capacity(heap, 32)?;
        Ok(Queue { names })
    }
}

impl Store for Queue {
    const CODE: u8 = 1;

    ghost CODE = { 1 };

    ghost way = { in_order };

    ghost held = { λ q. q.names.items };

    ghost lawful = { in_order_way };

    fn clear(&mut self) {
        self.names.clear();
    }

    fn is_empty(&self) -> bool {
        self.names.is_empty()
    }

    fn allows(&self, act: Act) -> bool {
        match act.letter {
            Letter::Send => self.names.len() < 32,
            Letter::Receive => self.names.front() == Some(&act.name),
        }
    }

    fn change(&mut self, act: Act) {
        match act.letter {
            Letter::Send => self.names.push_back_reserved(act.name),
            Letter::Receive => {
                let _ = self.names.pop_front();
            }
        }
    }
}
