ghost use Rattle.std.specs.Prelude.{◌≡◌};
ghost use Rattle.acts.specs.Acts.{Own};
ghost use Rattle.lines.specs.Charts.{LongestOrder};
ghost use Rattle.lines.specs.Of.{lines_of};
ghost use Rattle.lines.specs.Playing.{ready_by};

use crate::counting::{receives_of, sends_of};
use crate::progress::Progress;
use crate::sheet::Sheet;
use acts::{Act, Letter};

// Whether the act can be played next: a receive needs a message that was sent and not yet received.
fn can_play(progress: &Progress, act: Act) -> bool
    ensures { result ≡ ready_by (lines_of progress.now.sheet.now) progress.now.done act }
{
    match act.letter {
        Letter::Send => true,
        Letter::Receive => {
            let message = act.message();
            let sent = sends_of(progress.so_far(act.peer), message);
            let received = receives_of(progress.so_far(act.party), message);
            received < sent
        }
    }
}

impl Sheet {
    // How many acts the longest playing order has.
    pub fn longest_order(&self) -> usize
        ensures { Own (lines_of self.now) → LongestOrder (lines_of self.now) result }
    {
        let mut progress = Progress::new(self);
        let mut count = 0;
        while let Some((party, _)) = progress.first(|act| can_play(&progress, act)) {
            progress.pass(party);
            count += 1;
        }
        count
    }
}
