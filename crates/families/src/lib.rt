// Theorems about views, local lists and families of machines; each function's contract is one.

#![tactic(auto)]

ghost use Rattle.families.specs.Families.{Machines, AlikePair};
ghost use Rattle.families.specs.Theorems.{AgreementTells, WayDoesNotMatter, ViewsRealize, RealizedUnbroken, BrokenIsRun, ViewsTell, VerdictsMean, AlikeDoTheSame, TestsDecide};

// A family of machines, one for each party, with places of any kind.
pub trait Family {
    ghost machines: { Machines };
}

// A local list begins a held conversation exactly where one held chart agrees with all its parts.
pub fn agreement_tells()
    ensures { AgreementTells }
{}

// Two local lists with the same parts break alike.
pub fn way_does_not_matter()
    ensures { WayDoesNotMatter }
{}

// Where nothing breaks, the family of the views holds precisely the held conversations and has no
// dead end.
pub fn views_realize()
    ensures { ViewsRealize }
{}

// Where some family does so, nothing breaks.
pub fn realized_unbroken<F: Family>()
    ensures { RealizedUnbroken F.Family.machines }
{}

// Every family that is able to hold the held conversations can be led along a list that breaks.
pub fn broken_is_run<F: Family>()
    ensures { BrokenIsRun F.Family.machines }
{}

// What the family of the views does beyond the held conversations breaks CC3 or CC2.
pub fn views_tell()
    ensures { ViewsTell }
{}

// What a verdict means, against any family.
pub fn verdicts_mean<F: Family>()
    ensures { VerdictsMean F.Family.machines }
{}

// Two families whose places are related, and do the same where they are.
pub trait Likeness {
    ghost families: { AlikePair };
}

// Alike families have the same runs' lists and whole lists, are precise together and without dead
// ends together.
pub fn alike_do_the_same<L: Likeness>()
    ensures { AlikeDoTheSame L.Likeness.families }
{}

// The computed tests decide what they are named for.
pub fn tests_decide()
    ensures { TestsDecide }
{}
