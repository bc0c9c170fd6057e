ghost use Rattle.std.specs.Prelude.{◌≡◌, [], ◌∷◌};
ghost use Rattle.machines.specs.Files.{told_bytes, move_bytes, last_bytes};

use acts::Act;
use views::view::View;

// An act with its party, as a list file has it.
pub(crate) fn told_bytes(act: Act) -> [u8; 4]
    ensures { result ≡ told_bytes (act ∷ []) }
{
    [u8::from(act.letter), act.party, act.peer, act.name]
}

// The move to a view, which has this number.
pub(crate) fn move_bytes(number: u16, view: &View) -> [u8; 7]
    ensures { result ≡ move_bytes view.now.lengthens number view.now.act }
{
    let act = view.act;
    let [from_high, from_low] = view.lengthens.to_be_bytes();
    let [to_high, to_low] = number.to_be_bytes();
    let letter = u8::from(act.letter);
    [
        letter, from_high, from_low, to_high, to_low, act.peer, act.name,
    ]
}

// The number of a last view.
pub(crate) fn last_bytes(number: u16) -> [u8; 3]
    ensures { result ≡ last_bytes number }
{
    let [high, low] = number.to_be_bytes();
    [b'F', high, low]
}
