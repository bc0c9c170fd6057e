ghost use Rattle.std.specs.Prelude.{◌≡◌, true, ◌↔◌};
ghost use Rattle.chart.specs.Of.{lines_in};
ghost use Rattle.chart.specs.Same.{same_charts};
ghost use Rattle.chart.specs.SameLaws.{same_equivalence, same_partial};

use crate::chart::Chart;

// Charts are equal where their lines are; what a spare holds makes no difference.
impl PartialEq for Chart {
    ghost eq = { same_charts };

    ghost laws = { same_partial };

    fn eq(&self, other: &Chart) -> bool {
        self.parties() == other.parties()
            && (0..self.parties()).all(|party| self.line(party) == other.line(party))
    }
}

impl Eq for Chart {
    ghost laws = { same_equivalence };
}

impl Chart {
    // Whether the two charts have the same lines.
    pub fn same_lines(&self, other: &Chart) -> bool
        ensures { (result ≡ true) ↔ (lines_in self.now ≡ lines_in other.now) }
    {
        self == other
    }
}
