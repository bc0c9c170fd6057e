ghost use Rattle.std.specs.Prelude.{◌≡◌, ℕ, ◌<◌, true, ◌↔◌};
ghost use Rattle.channel.specs.Pairs.{Way, allows, change};
ghost use Rattle.channel.specs.Ways.{WayLawful};

use acts::Act;

// The names that wait from one sender to one receiver.
pub trait Store {
    // The code of the links that keep such stores.
    const CODE: u8;

    ghost CODE: { ℕ };

    ghost way: { Way };

    ghost held: { Self → way.Waiting };

    // Nothing waits any more.
    fn clear(&mut self)
        ensures { held self.new ≡ way.none };

    // Whether nothing waits.
    fn is_empty(&self) -> bool
        ensures { (result ≡ true) ↔ ((m : ℕ) → way.count (held self.now) m ≡ 0) };

    // Whether there is room for a name that is sent, or a name that is received is ready.
    fn allows(&self, act: Act) -> bool
        requires { act.name < 32 }
        ensures { result ≡ allows way act.letter act.name (held self.now) };

    // Puts a name that is sent, takes a name that is received.
    fn change(&mut self, act: Act)
        requires name { act.name < 32 }
        requires allowed { allows way act.letter act.name (held self.old) ≡ true }
        ensures { held self.new ≡ change way act.letter act.name (held self.old) };

    ghost lawful: { WayLawful way };
}
