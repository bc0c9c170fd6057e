ghost use Rattle.std.specs.Prelude.{◌≡◌};
ghost use Rattle.channel.specs.Places.{meaning_in};
ghost use Rattle.channel.specs.WaysLemmas.{way_lawful};

use crate::channel::Channel;
use crate::place::{PLACES, place};
use crate::store::Store;
use acts::Act;
use fault::ChannelCause;

// The messages from each sender to each receiver, in a store for each such pair.
#[derive(Drop)]
pub struct Link<S: Store> {
    pub(crate) stores: [S; PLACES],
}

impl<S: Store> Channel for Link<S> {
    const CODE: u8 = S::CODE;

    ghost CODE = { S.CODE };

    ghost meaning = { λ l. meaning_in S.way S.held l.stores };

    ghost lawful = { λ l. way_lawful S.way S.lawful };

    fn clear(&mut self) {
        for store in self.stores.iter_mut() {
            store.clear();
        }
    }

    fn may(&self, act: Act) -> bool {
        // A match, since the closure of `is_some_and` would need `place`'s and `allows`' clauses again.
        match place(act) {
            Some(at) => self.stores[at].allows(act),
            None => false,
        }
    }

    fn carry(&mut self, act: Act) -> Result<(), ChannelCause> {
        let at = place(act).ok_or(ChannelCause::Denied)?;
        let store = &mut self.stores[at];
        if !store.allows(act) {
            return Err(ChannelCause::Denied);
        }
        store.change(act);
        Ok(())
    }

    fn idle(&self) -> bool {
        self.stores.iter().all(S::is_empty)
    }

    fn kind(&self) -> u8 {
        Self::CODE
    }
}
