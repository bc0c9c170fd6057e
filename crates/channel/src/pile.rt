ghost use Rattle.std.specs.Prelude.{◌≡◌, replicate};
ghost use Rattle.channel.specs.Pairs.{total, in_any_order};
ghost use Rattle.channel.specs.Places.{counted};
ghost use Rattle.channel.specs.WaysLemmas.{in_any_order_way};

use crate::store::Store;
use acts::{Act, Letter};

// Names that are received in any order: how many of each wait, and how many in all, which is kept so
// that a send and the question whether nothing waits need not count.
#[derive(Clone, Copy)]
pub struct Pile {
    counts: [u8; 32],
    size: u8,
    ghost tie: { size ≡ total 32 (counted counts) },
}

impl Pile {
    // Nothing waits.
    pub(crate) fn new() -> Pile
        ensures { result.counts ≡ replicate 32 0 }
    {
        Pile {
            counts: [0; 32],
            size: 0,
        }
    }
}

impl Store for Pile {
    const CODE: u8 = 2;

    ghost CODE = { 2 };

    ghost way = { in_any_order };

    ghost held = { λ p. counted p.counts };

    ghost lawful = { in_any_order_way };

    fn clear(&mut self) {
        *self = Pile::new();
    }

    fn is_empty(&self) -> bool {
        self.size == 0
    }

    fn allows(&self, act: Act) -> bool {
        match act.letter {
            Letter::Send => self.size < 32,
            Letter::Receive => self.counts[usize::from(act.name)] > 0,
        }
    }

    fn change(&mut self, act: Act) {
        let count = &mut self.counts[usize::from(act.name)];
        match act.letter {
            Letter::Send => {
                *count += 1;
                self.size += 1;
            }
            Letter::Receive => {
                *count -= 1;
                self.size -= 1;
            }
        }
    }
}
