ghost use Rattle.std.specs.Prelude.{◌≡◌, length};
ghost use Rattle.views.specs.Children.{Best};

use crate::party_views::PartyViews;
use acts::Act;

impl PartyViews {
    // Of the views that lengthen the view `at` by an act of the party after the last one, the one
    // whose act comes first.
    pub fn next_child(&self, at: usize, party: u8, last: Option<Act>) -> Option<usize>
        ensures { Best self.now.views.items at party last (length self.now.views.items) result }
    {
        self.views
            .iter()
            .enumerate()
            .skip(1)
            .filter(|(_, view)| {
                usize::from(view.lengthens) == at
                    && view.act.party == party
                    && last.is_none_or(|last| last < view.act)
            })
            .min_by_key(|(_, view)| view.act)
            .map(|(number, _)| number)
    }
}
