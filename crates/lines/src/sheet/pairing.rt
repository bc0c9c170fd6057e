ghost use Rattle.std.specs.Prelude.{◌≡◌, true, ◌↔◌, MatchOption};
ghost use Rattle.lines.specs.Charts.{Pairs, FirstUnpaired, KnownPaired};
ghost use Rattle.lines.specs.Of.{lines_of};

use crate::counting::{receives_of, sends_of};
use crate::sheet::Sheet;
use acts::Message;

// How many messages there are between six parties.
const MESSAGES: u16 = 1152;

impl Sheet {
    // Whether the message is sent on its sender's line as often as it is received on its
    // receiver's.
    fn pairs(&self, message: Message) -> bool
        ensures { (result ≡ true) ↔ Pairs (lines_of self.now) message.sender message.receiver message.name }
    {
        let sent = sends_of(self.line(message.sender), message);
        let received = receives_of(self.line(message.receiver), message);
        sent == received
    }

    // The least number of a message that is not paired.
    pub fn first_unpaired(&self) -> Option<u16>
        ensures { MatchOption result (KnownPaired (lines_of self.now)) (λ k. FirstUnpaired (lines_of self.now) k) }
    {
        (0..MESSAGES).find(|number| !self.pairs(Message::numbered(u64::from(*number))))
    }
}
