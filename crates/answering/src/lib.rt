#![tactic(auto)]

ghost use Rattle.answering.specs.Answering.{AnswersComputed};

// The right answer to a call is the one that `answered` computes from the charts held.
pub fn right_answers_are_computed()
    ensures { AnswersComputed }
{}
