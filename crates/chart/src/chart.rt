ghost use Rattle.lines.specs.Charts.{Lined, Paired, Playable};
ghost use Rattle.lines.specs.Of.{lines_of};

use lines::sheet::Sheet;

mod comparing;
mod looking;
mod storing;

// A chart: for each of two to six parties a line of up to 32 acts. Every message is sent as often
// as it is received, and some playing order holds all acts. It is a place, too, that a file is read
// into: `spare` takes the lines until they are known to be a chart.
#[derive(Drop)]
pub struct Chart {
    sheet: Sheet,
    spare: Sheet,
    ghost lined: { ∥ Lined (lines_of sheet) ∥₁ },
    ghost paired: { Paired (lines_of sheet) },
    ghost playable: { ∥ Playable (lines_of sheet) ∥₁ },
}
