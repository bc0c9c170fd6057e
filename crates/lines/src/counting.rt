#![tactic(auto, using(crate::proofs::Tallies::tally_count))]

ghost use Rattle.std.specs.Prelude.{◌≡◌};
ghost use Rattle.acts.specs.Acts.{sends, receives};

use acts::{Act, Message};

// How often the acts send the message. One chain here and one below: with the test as a parameter they
// would be no plainer.
pub fn sends_of(acts: &[Act], message: Message) -> usize
    ensures { result ≡ sends message.sender message.receiver message.name acts.now }
{
    acts.iter().filter(|act| act.sends(message)).count()
}

// How often the acts receive the message.
pub fn receives_of(acts: &[Act], message: Message) -> usize
    ensures { result ≡ receives message.sender message.receiver message.name acts.now }
{
    acts.iter().filter(|act| act.receives(message)).count()
}
