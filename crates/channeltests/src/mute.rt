ghost use Rattle.std.specs.Prelude.{◌≡◌};
ghost use Rattle.channeltests.specs.Mute.{mute_meaning};
ghost use Rattle.channeltests.specs.Silence.{silent_lawful};

use acts::Act;
use channel::channel::Channel;
use fault::ChannelCause;

// A channel that denies every act.
#[derive(Drop)]
pub struct Mute;

impl Channel for Mute {
    const CODE: u8 = 99;

    ghost CODE = { 99 };

    ghost meaning = { λ s. mute_meaning };

    ghost lawful = { λ s. silent_lawful };

    fn clear(&mut self) {}

    fn may(&self, _act: Act) -> bool {
        false
    }

    fn carry(&mut self, _act: Act) -> Result<(), ChannelCause> {
        Err(ChannelCause::Denied)
    }

    fn idle(&self) -> bool {
        true
    }

    fn kind(&self) -> u8 {
        Self::CODE
    }
}
