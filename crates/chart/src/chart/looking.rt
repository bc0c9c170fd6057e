ghost use Rattle.std.specs.Prelude.{◌≡◌, ◌≤◌, List, [], ◌∷◌, length, IfOk};
ghost use Rattle.acts.specs.Acts.{line};
ghost use Rattle.acts.specs.Language.{size};
ghost use Rattle.lines.specs.Charts.{IsChart};
ghost use Rattle.lines.specs.Of.{lines_of};
ghost use Rattle.chart.specs.Of.{lines_in};

use crate::chart::Chart;
use acts::Act;
use lines::sheet::Sheet;
use std::alloc::{AllocError, Global};

impl Chart {
    // A chart place: two parties and no act, with memory for the largest chart.
    pub fn new(heap: Global) -> Result<Chart, AllocError>
        ensures { IfOk result (λ c. lines_in c ≡ [] ∷ [] ∷ []) }
    {
        let sheet = Sheet::new(heap)?;
        let spare = Sheet::new(heap)?;
        Ok(Chart { sheet, spare })
    }

    // The chart's lines.
    pub fn sheet(&self) -> &Sheet
        ensures { lines_of result.now ≡ lines_in self.now }
    {
        &self.sheet
    }

    // How many parties the chart has.
    pub fn parties(&self) -> u8
        ensures count { result ≡ length (lines_in self.now) }
        ensures some { 2 ≤ result }
        ensures few { result ≤ 6 }
    {
        self.sheet.begun()
    }

    // The acts of a party's line; none where the chart has no such party.
    pub fn line(&self, party: u8) -> &[Act]
        ensures acts { result.now ≡ line (lines_in self.now) party }
        ensures short { length result.now ≤ 32 }
    {
        self.sheet.line(party)
    }

    // How many acts the chart has.
    pub fn size(&self) -> usize
        ensures { result ≡ size (lines_in self.now) }
    {
        self.sheet.size()
    }

    // What every chart keeps.
    pub fn is_chart(&self)
        ensures { IsChart (lines_in self.now) }
    {}
}
