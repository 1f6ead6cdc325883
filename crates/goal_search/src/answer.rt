//! The answer to a goal.
ghost use Rattle.std.specs.Prelude.{◌≡◌, ◌↔◌, IsTrue};
ghost use Rattle.goal_search.specs.declared.answer.Answer.TheVariants as answers;
ghost use Rattle.goal_search.specs.Own.{either, unless_no, shadowed};

/// What a goal is answered.
#[derive(Clone, Copy, Debug, PartialEq, Eq)]
pub enum Answer {
    Yes,
    No,
    /// Neither is known: some hole or alias is open, or the depth is used up.
    Undecided,
}

pub(crate) fn is_yes(answer: Answer) -> bool
    ensures { IsTrue result ↔ answer ≡ answers.Yes }
{
    answer == Answer::Yes
}

pub(crate) fn is_no(answer: Answer) -> bool
    ensures { IsTrue result ↔ answer ≡ answers.No }
{
    answer == Answer::No
}

/// Yes where one is, No where both are.
pub(crate) fn either(left: Answer, right: Answer) -> Answer
    ensures { result ≡ either left right }
{
    match (left, right) {
        (Answer::Yes, _) | (_, Answer::Yes) => Answer::Yes,
        (Answer::No, Answer::No) => Answer::No,
        _ => Answer::Undecided,
    }
}

/// The answer, but for No, which is undecided.
pub(crate) fn unless_no(answer: Answer) -> Answer
    ensures { result ≡ unless_no answer }
{
    match answer {
        Answer::No => Answer::Undecided,
        Answer::Yes | Answer::Undecided => answer,
    }
}

/// What clauses and rules say together, where `shadows` says whether a clause shadows the rules.
pub(crate) fn shadowed(clauses: Answer, shadows: Answer, rules: Answer) -> Answer
    ensures { result ≡ shadowed clauses shadows rules }
{
    match (clauses, shadows, rules) {
        (Answer::Yes, _, _) => Answer::Yes,
        (Answer::No, Answer::Yes, _) => Answer::No,
        (Answer::No, Answer::No, rules) => rules,
        (Answer::No, Answer::Undecided, Answer::No) => Answer::No,
        (Answer::Undecided, Answer::No, Answer::Yes) => Answer::Yes,
        _ => Answer::Undecided,
    }
}
