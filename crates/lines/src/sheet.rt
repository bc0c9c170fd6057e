ghost use Rattle.std.specs.Prelude.{◌≡◌, ◌≤◌, length};

use crate::party_line::PartyLine;

mod filling;
mod looking;
mod pairing;
mod playing;

pub use filling::OutOfRange;

// The lines of up to six parties, from party 0 up, of which so many have begun. Nothing says yet
// that they make a chart.
#[derive(Drop)]
pub struct Sheet {
    parties: u8, // none before a file has opened the sheet: a count, and no code
    begun: u8, // no Vec of the lines begun: each line's memory stays reserved
    lines: [PartyLine; 6],
    ghost few: { parties ≤ 6 },
    ghost within: { begun ≤ parties },
    ghost six: { length lines ≡ 6 }, // clauses see an array as a list
}
