ghost use Rattle.std.specs.Prelude.{◌≡◌, ℕ, true, ◌↔◌, [], ◌∷◌, is_ok};
ghost use Rattle.channel.specs.Meaning.{Meaning, Lawful, cleared, tried, Still};

use acts::Act;
use fault::ChannelCause;

// A link between the parties, known by its meaning: which lists of acts it grants from clear and
// from now on, and how many of each message wait.
pub trait Channel {
    // The code of this kind of channel: a number, since files hold it as one byte.
    const CODE: u8;

    ghost CODE: { ℕ };

    ghost meaning: { Self → Meaning };

    // Nothing waits any more.
    fn clear(&mut self)
        ensures { meaning self.new ≡ cleared (meaning self.old) };

    // Whether the act is granted.
    fn may(&self, act: Act) -> bool
        ensures { result ≡ (meaning self.now).grants (act ∷ []) };

    // Does the act where it is granted, and otherwise refuses and changes nothing.
    fn carry(&mut self, act: Act) -> Result<(), ChannelCause>
        ensures test { is_ok result ≡ (meaning self.old).grants (act ∷ []) }
        ensures after { meaning self.new ≡ tried (is_ok result) act (meaning self.old) };

    // Whether nothing waits.
    fn idle(&self) -> bool
        ensures { (result ≡ true) ↔ Still (meaning self.now) };

    // The code, as a call.
    fn kind(&self) -> u8
        ensures { result ≡ CODE };

    ghost lawful: { (s : Self) → Lawful (meaning s).clearly };
}
