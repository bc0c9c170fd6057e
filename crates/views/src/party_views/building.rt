ghost use Rattle.std.specs.Prelude.{◌≡◌, ℕ, ◌+◌, ◌^◌, ◌<◌, ◌≤◌, List, [], ◌∷◌, ◌++◌, length, IfOk, vec_len, MatchOption, slice_index_or, slice_set};
ghost use Rattle.std.specs.Int.Bits.{bit_or};
ghost use Rattle.numbering.specs.Numbering.{noted};
ghost use Rattle.views.specs.Spelled.{spelled, root, Child, NoChild};
ghost use Rattle.views.specs.Building.{Grown, in_chart, completing, Entering, Entered};
ghost use Rattle.views.specs.declared.view.View.{View};
ghost use Rattle.views.specs.Tables.{table_of, Shows};

use crate::party_views::PartyViews;
use crate::view::{EMPTY, View};
use acts::Act;
use chart::chart::Chart;
use std::alloc::{AllocError, Global};

// The most views of a party: the empty one, and 32 for each of eight charts.
const MOST_VIEWS: usize = 257;

impl PartyViews {
    // The empty view alone. All memory is taken here.
    pub fn new(heap: Global) -> Result<PartyViews, AllocError>
        ensures { IfOk result (λ v. v.views.items ≡ root ∷ []) }
    {
        let mut views = Vec::with_capacity(heap, MOST_VIEWS)?;
        views.push_reserved(EMPTY);
        Ok(PartyViews { views })
    }

    // The views by number.
    pub fn views(&self) -> &[View]
        ensures value { result.now ≡ self.now.views.items }
        ensures some { 0 < length result.now }
        ensures few { length result.now ≤ 257 }
    {
        self.views.as_slice()
    }

    // The empty view alone, of no chart.
    pub fn restart(&mut self)
        ensures { self.new.views.items ≡ root ∷ [] }
    {
        self.views.clear();
        self.views.push_reserved(EMPTY);
    }

    // The view that lengthens the view `at` by the act.
    pub fn child(&self, at: usize, act: Act) -> Option<usize>
        ensures { MatchOption result (NoChild self.now.views.items at act) (λ k. Child self.now.views.items at act k) }
    {
        self.views[1..]
            .iter()
            .position(|view| usize::from(view.lengthens) == at && view.act == act)
            .map(|place| place + 1)
    }

    // The view that lengthens the view `at` by the act, which is new where there was none.
    fn lengthened(&mut self, at: usize, act: Act) -> usize
        requires within { at < vec_len self.old.views }
        requires room { vec_len self.old.views < 257 }
        requires short { length (slice_index_or (spelled self.old.views.items) at []) < 32 }
        ensures below { result < vec_len self.new.views }
        ensures is { slice_index_or (spelled self.new.views.items) result [] ≡ slice_index_or (spelled self.old.views.items) at [] ++ (act ∷ []) }
        ensures views { spelled self.new.views.items ≡ noted (spelled self.old.views.items) (slice_index_or (spelled self.old.views.items) at [] ++ (act ∷ [])) }
        ensures grown { Grown self.old.views.items self.new.views.items }
    {
        if let Some(k) = self.child(at, act) {
            return k;
        }
        let number = self.views.len();
        self.views.push_reserved(View {
            lengthens: at as u16,
            act,
            charts: 0,
            complete: 0,
        });
        number
    }

    // Notes every beginning of a line but the empty one, with the bit of the line's chart, and
    // answers the view that the whole line is.
    fn walk(&mut self, line: &[Act], bit: u8) -> usize
        requires room { vec_len self.old.views + length line.now ≤ 257 }
        requires short { length line.now ≤ 32 }
        ensures below { result < vec_len self.new.views }
        ensures entering { (start : List View) → Entering start [] bit 0 self.old.views.items → Entering start line.now bit result self.new.views.items }
    {
        let mut at = 0;
        for act in line {
            at = self.lengthened(at, *act);
            self.views[at].charts |= bit;
        }
        at
    }

    // Notes every beginning of a chart's line, with the bit of the chart.
    fn enter_line(&mut self, line: &[Act], bit: u8)
        requires room { vec_len self.old.views + length line.now ≤ 257 }
        requires short { length line.now ≤ 32 }
        ensures { Entered self.old.views.items line.now bit self.new.views.items }
    {
        self.views[0].charts |= bit;
        let whole = self.walk(line, bit);
        self.views[whole].complete |= bit;
    }

    // The party's views in the charts, which stand under their ids.
    pub fn build(&mut self, charts: &[Option<Chart>], party: u8)
        requires { length charts.now ≡ 8 }
        ensures { Shows (table_of charts.now) party self.new.views.items }
    {
        self.restart();
        for (id, chart) in charts.iter().enumerate() {
            if let Some(chart) = chart {
                self.enter_line(chart.line(party), 1 << id);
            }
        }
    }
}
