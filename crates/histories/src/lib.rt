// What a book must answer after every history of calls, and what then holds.

#![tactic(auto)]

ghost use Rattle.histories.specs.Law.{LawOverHistories};

use families::Family;

// What holds after every history whose answers were right, over every lawful channel and against
// any family of machines.
pub fn law_over_histories<F: Family>()
    ensures { LawOverHistories F.Family.machines }
{}
