ghost use Rattle.std.specs.Prelude.{◌≡◌};
ghost use Rattle.channel.specs.Pairs.{meaning_of, in_any_order, clear};
ghost use Rattle.channel.specs.Places.{meaning_in};
ghost use Rattle.channel.specs.Stores.{piled};

use crate::link::Link;
use crate::pile::Pile;
use crate::place::PLACES;

// The messages from each sender to each receiver, received in any order.
pub type Bag = Link<Pile>;

impl Bag {
    // Nothing waits.
    pub fn new() -> Bag
        ensures { meaning_in in_any_order piled result.stores ≡ meaning_of in_any_order (clear in_any_order) }
    {
        Link {
            stores: [Pile::new(); PLACES],
        }
    }
}
