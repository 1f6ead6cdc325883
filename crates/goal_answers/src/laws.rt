//! Laws of answers.
ghost use Rattle.goal_answers.specs.Own.{AnswersAreOne, DecidedAnswersStay, DeeperAnswersAgree, SelectedIsTheSource, YesHasProofs, NoHasNoProof};

/// What a goal is answered stays where its holes are filled with types without aliases.
pub fn decided_answers_stay()
    ensures { DecidedAnswersStay }
{}

/// What a goal is answered stays at every greater depth.
pub fn deeper_answers_agree()
    ensures { DeeperAnswersAgree }
{}

/// No goal is answered both Yes and No, and an alias reads as one thing.
pub fn answers_are_one()
    ensures { AnswersAreOne }
{}

/// A goal answered Yes has a proof, and one answered No has none, however its holes are filled with
/// types without aliases.
pub fn answers_tell_proofs()
    ensures yes { YesHasProofs }
    ensures no { NoHasNoProof }
{}

/// A goal selected by a rule, or by its parts being copied, has no proof by anything else, however its
/// holes are filled with types without aliases.
pub fn selected_is_the_source()
    ensures { SelectedIsTheSource }
{}
