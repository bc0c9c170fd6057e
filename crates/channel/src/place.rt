ghost use Rattle.std.specs.Prelude.{◌≡◌, ◌<◌, true, MatchOption, false};
ghost use Rattle.channel.specs.Pairs.{in_range};
ghost use Rattle.channel.specs.Places.{place_of};

use acts::{Act, NAMES, PARTIES};

// The places at which messages wait: one for each sender and receiver of six parties.
pub(crate) const PLACES: usize = 36;

// The place at which the messages from the act's sender to its receiver wait, if the act is in
// range for six parties.
pub(crate) fn place(act: Act) -> Option<usize>
    ensures { MatchOption result (in_range act ≡ false) (λ at. (in_range act ≡ true) × (at ≡ place_of act) × (at < 36)) }
{
    if act.party < PARTIES && act.peer < PARTIES && act.peer != act.party && act.name < NAMES {
        let message = act.message();
        Some(usize::from(message.sender) * 6 + usize::from(message.receiver))
    } else {
        None
    }
}
