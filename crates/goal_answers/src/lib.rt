//! What trait goals are answered, and what associated types read as: the definitions, and their laws.
#![tactic(auto)]

mod laws;

pub use laws::{
    answers_are_one, answers_tell_proofs, decided_answers_stay, deeper_answers_agree,
    selected_is_the_source,
};
